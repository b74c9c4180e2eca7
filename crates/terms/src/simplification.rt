// Simplifying an equation of two terms.
ghost use Rattle.std.specs.Prelude.{◌≡◌, ◌<◌, ◌^◌};
ghost use Rattle.terms.specs.Lines as lines;
ghost use Rattle.terms.specs.Needs.{HasWords};
ghost use Rattle.terms.specs.Simplify as spec;
ghost use Rattle.terms.specs.Limits as limit;
ghost use Rattle.terms.specs.declared.simplification.Guard.TheVariants as guard;

use crate::limits::{TermLimits, term_limits};
use crate::lines::{line_2, one_case};
use crate::refusal::Refusal;
use crate::term::{Equation, allows, word_of};

// What an equation of two terms simplifies to.
#[derive(Clone, Copy, Debug, PartialEq, Eq)]
pub enum Guard {
    Never,
    Always,
    Question(Equation),
}

// What simplify answers: a question by its two term words and its gap, right steps minus left steps. Not one generic enum with Guard: the definitions
// match on both by name, and the parameter would stand in each of them.
#[derive(Clone, Copy, Debug, PartialEq, Eq)]
pub enum Simplified {
    Never,
    Always,
    Question { left: u32, right: u32, gap: i32 },
}

// Why simplify refuses an equation: a term is beyond the limits.
#[derive(Clone, Copy, Debug, PartialEq, Eq)]
pub struct OutOfLimits;

impl Refusal for OutOfLimits {
    ghost number_of = { spec.limits_fault_number };

    fn number(self) -> u32 {
        35
    }
}

// An answer in document 01's numbers, laid out as C reads it.
#[repr(C)]
#[derive(Clone, Copy, Debug, PartialEq, Eq)]
pub struct SimplifyAnswer {
    pub number: u32,
    pub result: u32,
    pub left: u32,
    pub right: u32,
    pub gap: i32,
}

// Line 2, as long as it applies. It has a loop of its own, of which the compiler makes a subtraction: so the time does not grow with the steps.
fn steps_off(e: Equation) -> Guard
    ensures { lines.Exhausted 2 (guard.Question e) result }
{
    let mut guard = Guard::Question(e);
    while let Guard::Question(less) = guard {
        match line_2(less) {
            Some(next) => guard = next,
            None => return guard,
        }
    }
    guard
}

// What an equation simplifies to, whatever its step counts: one case after another, until none applies.
pub fn simplify_equation(e: Equation) -> Guard
    ensures { result ≡ spec.simplify e }
{
    let mut guard = steps_off(e);
    while let Some(next) = one_case(guard) {
        guard = next;
    }
    guard
}

// A question's gap, right steps minus left steps.
fn gap(e: Equation) -> i32
    requires { (e.left.steps.0 < 2 ^ 31) × (e.right.steps.0 < 2 ^ 31) }
    ensures { result ≡ spec.gap e }
{
    e.right.steps.0 as i32 - e.left.steps.0 as i32
}

// A guard as an answer: a question by its words and gap. Not a From, since not every question has words.
fn shown(g: Guard) -> Simplified
    requires { HasWords g }
    ensures { result ≡ spec.shown g }
{
    match g {
        Guard::Never => Simplified::Never,
        Guard::Always => Simplified::Always,
        Guard::Question(q) => Simplified::Question {
            left: word_of(q.left),
            right: word_of(q.right),
            gap: gap(q),
        },
    }
}

// Simplifies two term words within limits.
#[tactic(auto, using(crate::proofs::SimplifyWords::words_read), unfolding(crate::specs::Simplify::simplify_words))]
pub fn simplify_within(limits: TermLimits, left: u32, right: u32) -> Result<Simplified, OutOfLimits>
    ensures { result ≡ spec.simplify_words limits left right }
{
    let e = Equation::of_words(left, right);
    if allows(limits, e.left) && allows(limits, e.right) {
        return Ok(shown(simplify_equation(e)));
    }
    Err(OutOfLimits)
}

// Simplifies two term words.
pub fn simplify(left: u32, right: u32) -> Result<Simplified, OutOfLimits>
    ensures { result ≡ spec.simplify_words limit.term_limits left right }
{
    simplify_within(term_limits(), left, right)
}

impl From<Result<Simplified, OutOfLimits>> for SimplifyAnswer {
    // The number, result, two words and gap of an answer.
    fn from(answer: Result<Simplified, OutOfLimits>) -> SimplifyAnswer
        ensures { result ≡ spec.answer answer }
    {
        match answer {
            Err(fault) => plain(fault.number(), 0),
            Ok(Simplified::Never) => plain(0, 0),
            Ok(Simplified::Always) => plain(0, 1),
            Ok(Simplified::Question { left, right, gap }) => SimplifyAnswer {
                number: 0,
                result: 2,
                left,
                right,
                gap,
            },
        }
    }
}

// An answer with no question beside it.
fn plain(number: u32, res: u32) -> SimplifyAnswer
    ensures { result ≡ spec.plain number res }
{
    SimplifyAnswer {
        number,
        result: res,
        left: 0,
        right: 0,
        gap: 0,
    }
}
