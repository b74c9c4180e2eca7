// The five lines of document 000's Definition 24, each by itself, and what one of them makes of a guard.
//
// Repeated until none applies they simplify an equation, in whatever order they are picked (proofs/AnyOrder.antt). By hand, where 1, 2 and 3 are fields,
// S is a step and S3 three of them:
// - S3(1) = S(2): line 2 leads to S2(1) = 2, and line 5 turns that round, to 2 = S2(1), where no line applies;
// - S(1) = S2(1): line 2 leads to 1 = S(1), which line 4 takes the other way round: never;
// - S(0) = S2(3): line 2 leads to 0 = S(3), which line 3 takes the other way round: never.
// More stand in proofs/WorkedSequences.antt.
ghost use Rattle.std.specs.Prelude.{◌≡◌, ◌<◌};
ghost use Rattle.terms.specs.Lines as spec;
ghost use Rattle.terms.specs.declared.simplification.Guard.TheVariants as guard;

use crate::simplification::Guard;
use crate::term::{Equation, Steps, Term};

// Whether a term is before another: by its field, zero first, then by its steps.
#[tactic(auto, unfolding(crate::specs::Lines::is_before))]
fn is_before(r: Term, t: Term) -> bool
    ensures { result ≡ spec.is_before r t }
{
    r.field.0 < t.field.0 || (r.field.0 == t.field.0 && r.steps.0 < t.steps.0)
}

// The term x of a term S(x).
#[tactic(auto, using(crate::proofs::LineTests::one_step_less))]
fn step_off(t: Term) -> Term
    requires { 0 < t.steps.0 }
    ensures { spec.S result ≡ t }
{
    Term {
        field: t.field,
        steps: Steps(t.steps.0 - 1),
    }
}

// Line 1: x = x → always.
#[tactic(auto, using(crate::proofs::LineTests::line_1_applies))]
fn line_1(e: Equation) -> Option<Guard>
    ensures { spec.Tried 1 (guard.Question e) result }
{
    if e.left.field.0 == e.right.field.0 && e.left.steps.0 == 0 && e.right.steps.0 == 0 {
        return Some(Guard::Always);
    }
    None
}

// Line 2: S(y) = S(x) → y = x.
#[tactic(auto, using(crate::proofs::LineTests::line_2_applies))]
pub fn line_2(e: Equation) -> Option<Guard>
    ensures { spec.Tried 2 (guard.Question e) result }
{
    if e.left.steps.0 > 0 && e.right.steps.0 > 0 {
        return Some(Guard::Question(Equation {
            left: step_off(e.left),
            right: step_off(e.right),
        }));
    }
    None
}

// Line 3: S(x) = 0 → never, either way round.
#[tactic(auto, using(crate::proofs::LineTests::line_3_applies, crate::proofs::LineTests::line_3_turned))]
fn line_3(e: Equation) -> Option<Guard>
    ensures { spec.Tried 3 (guard.Question e) result }
{
    if e.left.steps.0 > 0 && e.right.field.0 == 0 && e.right.steps.0 == 0 {
        return Some(Guard::Never);
    }
    if e.right.steps.0 > 0 && e.left.field.0 == 0 && e.left.steps.0 == 0 {
        return Some(Guard::Never);
    }
    None
}

// Line 4: S^(m+1)(x) = x → never, either way round.
#[tactic(auto, using(crate::proofs::LineTests::line_4_applies, crate::proofs::LineTests::line_4_turned))]
fn line_4(e: Equation) -> Option<Guard>
    ensures { spec.Tried 4 (guard.Question e) result }
{
    if e.left.steps.0 > 0 && e.left.field.0 == e.right.field.0 && e.right.steps.0 == 0 {
        return Some(Guard::Never);
    }
    if e.right.steps.0 > 0 && e.left.field.0 == e.right.field.0 && e.left.steps.0 == 0 {
        return Some(Guard::Never);
    }
    None
}

// Line 5: r = t → t = r, where r is before t.
#[tactic(auto, using(crate::proofs::LineTests::line_5_applies))]
fn line_5(e: Equation) -> Option<Guard>
    ensures { spec.Tried 5 (guard.Question e) result }
{
    if is_before(e.left, e.right) {
        return Some(Guard::Question(Equation {
            left: e.right,
            right: e.left,
        }));
    }
    None
}

// What the first line that applies makes of a guard, or nothing if none applies. Which one it is makes no difference in the end.
pub fn one_case(g: Guard) -> Option<Guard>
    ensures { spec.Stepped g result }
{
    match g {
        Guard::Never | Guard::Always => None,
        Guard::Question(e) => line_1(e)
            .or(line_2(e))
            .or(line_3(e))
            .or(line_4(e))
            .or(line_5(e)),
    }
}
