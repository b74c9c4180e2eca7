// Equations of two terms, each of which is one word: its field, and its steps times 32.
ghost use Rattle.std.specs.Iterator.{at_most};
ghost use Rattle.std.specs.Prelude.{◌≡◌, ◌+◌, ◌/◌, ◌<◌, [], ◌∷◌, length};

use crate::limits::Limits;

pub fn field(term: u32) -> u32
    ensures { result < 32 }
{
    term % 32
}

pub fn steps(term: u32) -> u32
    ensures { result ≡ term / 32 }
{
    term / 32
}

#[derive(Clone, Copy, Debug, PartialEq, Eq)]
pub struct Equation {
    pub left: u32,
    pub right: u32,
}

impl From<[u32; 2]> for Equation {
    fn from(words: [u32; 2]) -> Equation
        ensures { words ≡ result.left ∷ result.right ∷ [] }
    {
        let [left, right] = words;
        Equation { left, right }
    }
}

impl Equation {
    // A method, since with From each caller would have to name the type of the array.
    pub fn words(self) -> [u32; 2]
        ensures { result ≡ self.left ∷ self.right ∷ [] }
    {
        [self.left, self.right]
    }

    pub fn turned_round(self) -> Equation
        ensures left { result.left ≡ self.right }
        ensures right { result.right ≡ self.left }
    {
        Equation {
            left: self.right,
            right: self.left,
        }
    }

    // Whether a term has a field above n, or too many steps.
    pub fn is_beyond(self, limits: Limits, n: u32) -> bool {
        is_beyond(limits, n, self.left) || is_beyond(limits, n, self.right)
    }

    // Larger field left, no common steps, and no steps on the left of zero.
    pub fn is_question(self) -> bool {
        let right = field(self.right);
        field(self.left) > right
            && (steps(self.left) == 0 || (steps(self.right) == 0 && right != 0))
    }

    // The steps of both sides: a question's gap without its sign, as one of its sides has none.
    pub fn gap(self) -> u32
        ensures { result ≡ self.left / 32 + self.right / 32 }
    {
        steps(self.left) + steps(self.right)
    }
}

// The equations of a list, by its words. A type of its own, since no function can give an impl Iterator.
#[derive(Clone, Copy)]
pub struct Equations<'a>(pub &'a [u32]);

impl Iterator for Equations<'_> {
    type Item = Equation;

    ghost remaining = { λ s. at_most (length s.0.now) };

    fn next(&mut self) -> Option<Equation> {
        let (pair, rest) = self.0.split_first_chunk::<2>()?;
        self.0 = rest;
        Some(Equation::from(*pair))
    }
}

pub fn is_beyond(limits: Limits, n: u32, term: u32) -> bool {
    field(term) > n || steps(term) > limits.steps
}
