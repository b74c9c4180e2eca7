// The questions answered no, in fixed memory.
ghost use Rattle.std.specs.Prelude.{◌≡◌, [], ◌∷◌, ◌≤◌, ◌<◌, length, take};
ghost use Rattle.facts.specs.Record as spec;
ghost use Rattle.terms.specs.Limits.{most_count};

use terms::{Equation, MOST_QUESTIONS, word_of};

// How many a record has room for.
pub const NOES: usize = MOST_QUESTIONS as usize;

// A question by its two term words, half of the size of its terms: a record is copied at each step of a walk.
#[derive(Clone, Copy)]
pub struct WordPair {
    pub left: u32,
    pub right: u32,
}

impl WordPair {
    // The question that the words hold.
    pub fn question(self) -> Equation
        ensures { result ≡ spec.question_in self }
    {
        Equation::of_words(self.left, self.right)
    }
}

// The first `count` pairs. A list that grows would take the heap, which the library has none of.
#[derive(Clone, Copy)]
pub struct Noes {
    pub pairs: [WordPair; NOES],
    pub count: usize,
}

impl Noes {
    // No question.
    #[tactic(auto, unfolding(crate::specs::Record::noes_in))]
    pub fn none() -> Noes
        ensures { spec.questions_in result ≡ [] }
    {
        Noes {
            pairs: [WordPair { left: 0, right: 0 }; NOES],
            count: 0,
        }
    }

    // The questions, by their words.
    pub fn listed(&self) -> &[WordPair]
        requires { self.now.count ≤ spec.most_noes }
        ensures { result.now ≡ take self.now.count self.now.pairs }
    {
        &self.pairs[0..self.count]
    }

    // One question more, as the newest.
    pub fn push(&mut self, q: Equation)
        requires small { spec.Small most_count q }
        requires room { self.old.count < spec.most_noes }
        ensures { spec.questions_in self.new ≡ q ∷ spec.questions_in self.old }
    {
        self.pairs[self.count] = WordPair {
            left: word_of(q.left),
            right: word_of(q.right),
        };
        self.count += 1;
    }
}
