// Simplify, against the evaluator: its refusal, the form of its question, and its truth under choices of counts.
use crate::chance::Chance;
use crate::run::Run;
use evaluator::{Counts, Equation, Limits, MOST_STEPS, Refusal, field, put, steps};
use sheet::sheet_simplify;
use terms::SimplifyAnswer;

// Small counts in all sixteen fields.
fn throw_counts(chance: &mut Chance) -> Counts {
    let mut counts = [0; 16];
    for count in &mut counts {
        *count = chance.below(5);
    }
    counts
}

// A number of steps: a few, any up to the limit, or some near 255 or near the limit.
fn throw_steps(chance: &mut Chance) -> u32 {
    match chance.below(8) {
        0 => chance.from_on(252, 8),
        1 => chance.from_on(MOST_STEPS - 3, 8),
        2 | 3 => chance.below(MOST_STEPS + 1),
        _ => chance.below(4),
    }
}

// A term of a field up to 17.
fn throw_term(chance: &mut Chance) -> u32 {
    let field = chance.below(18);
    throw_steps(chance).saturating_mul(32).saturating_add(field)
}

// The form of the answer: a question beside its gap, right steps minus left steps, and zeros beside all else. The answer is C's record, whose numbers are
// what is tested here.
fn is_formed(a: SimplifyAnswer) -> bool {
    if a.number == 0 && a.result == 2 {
        let gap = i64::from(steps(a.right)) - i64::from(steps(a.left));
        return question_of(a).is_question() && i64::from(a.gap) == gap;
    }
    let is_plain = a.left == 0 && a.right == 0 && a.gap == 0;
    is_plain && (a.result == 0 || (a.result == 1 && a.number == 0))
}

// From can't be given to types of two other crates.
fn question_of(a: SimplifyAnswer) -> Equation {
    Equation {
        left: a.left,
        right: a.right,
    }
}

// The truth of what an equation was simplified to.
fn truth(a: SimplifyAnswer, counts: &Counts) -> bool {
    match a.result {
        1 => true,
        2 => question_of(a).holds(counts),
        _ => false,
    }
}

// Counts that satisfy an equation, if there are any: all are 0 but that of the side with fewer steps, which is as much as these lack.
fn meeting(equation: Equation) -> Counts {
    let mut counts = [0; 16];
    let lack = steps(equation.left).abs_diff(steps(equation.right));
    let side = if steps(equation.left) < steps(equation.right) {
        equation.left
    } else {
        equation.right
    };
    if let Some(place) = field(side).checked_sub(1) {
        put(&mut counts, place as usize, lack);
    }
    counts
}

// Whether an equation and what it was simplified to are alike under a choice of counts.
fn compare_under(run: &mut Run, equation: Equation, a: SimplifyAnswer, counts: Counts) {
    run.agree(equation.holds(&counts) == truth(a, &counts));
}

fn compare_truths(run: &mut Run, equation: Equation, a: SimplifyAnswer) {
    compare_under(run, equation, a, meeting(equation));
    for _ in 0..12 {
        let counts = throw_counts(&mut run.chance);
        compare_under(run, equation, a, counts);
    }
}

// The fields of an equation without a store are the institute's.
fn compare_equation(run: &mut Run, equation: Equation) {
    let limits = Limits::INSTITUTE;
    let a = sheet_simplify(equation.left, equation.right);
    run.agree(is_formed(a));
    let expected = if equation.is_beyond(limits, limits.fields) {
        Err(Refusal::RuleTerm)
    } else {
        Ok(())
    };
    run.expect_number(a.number, expected);
    if expected.is_ok() {
        compare_truths(run, equation, a);
    }
}

fn try_thrown(run: &mut Run) {
    let left = throw_term(&mut run.chance);
    let right = throw_term(&mut run.chance);
    compare_equation(run, Equation { left, right });
}

// Terms of few steps and of few fields, so that equations of one field and of zero come often; and the same number of steps more on both sides: none, or any that brings a side at most one beyond the limit.
fn try_low(run: &mut Run) {
    let left = run.chance.low_term(3);
    let right = run.chance.low_term(3);
    let size = 32 * run.chance.below(MOST_STEPS);
    let raised = Equation {
        left: left.saturating_add(size),
        right: right.saturating_add(size),
    };
    compare_equation(run, Equation { left, right });
    compare_equation(run, raised);
}

pub fn try_equations(run: &mut Run) {
    for _ in 0..1000 {
        try_thrown(run);
        try_low(run);
    }
}
