// Fields, step counts, terms, and the words that hold them.
ghost use Rattle.std.specs.Prelude.{◌≡◌, ◌<◌, ◌^◌};
ghost use Rattle.terms.specs.Words as words;

use crate::limits::TermLimits;

// The number of a field. 0 stands for zero.
#[derive(Clone, Copy, Debug, PartialEq, Eq)]
pub struct Field(pub u32);

// The number of steps that a term adds to its field's count.
#[derive(Clone, Copy, Debug, PartialEq, Eq)]
pub struct Steps(pub u32);

// A field's count plus a number of steps.
#[derive(Clone, Copy, Debug, PartialEq, Eq)]
pub struct Term {
    pub field: Field,
    pub steps: Steps,
}

// Two terms that are said to be equal.
#[derive(Clone, Copy, Debug, PartialEq, Eq)]
pub struct Equation {
    pub left: Term,
    pub right: Term,
}

// A step's weight in a term word, of which the field is the remainder.
const STEP_WEIGHT: u32 = 32;

impl From<u32> for Term {
    // The term that a word holds.
    fn from(word: u32) -> Term
        ensures { result ≡ words.term_of word }
    {
        Term {
            field: Field(word % STEP_WEIGHT),
            steps: Steps(word / STEP_WEIGHT),
        }
    }
}

impl Equation {
    // The equation of the terms that two words hold.
    pub fn of_words(left: u32, right: u32) -> Equation
        ensures { result ≡ words.equation (words.term_of left) (words.term_of right) }
    {
        Equation {
            left: Term::from(left),
            right: Term::from(right),
        }
    }
}

// The word that holds a term; not a From, since a term of more steps than a word holds has none.
pub fn word_of(t: Term) -> u32
    requires { words.word_of t < 2 ^ 32 }
    ensures { result ≡ words.word_of t }
{
    t.steps.0 * STEP_WEIGHT + t.field.0
}

// Whether a term is within the limits.
#[tactic(auto, unfolding(crate::specs::Words::allows))]
pub fn allows(limits: TermLimits, t: Term) -> bool
    ensures { result ≡ words.allows limits t }
{
    t.field.0 <= limits.field.0 && t.steps.0 <= limits.steps.0
}
