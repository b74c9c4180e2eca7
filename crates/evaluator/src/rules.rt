// Rule tables: their rows, and which refusal a table asks for.
ghost use Rattle.evaluator.specs.Rows.{row_words};
ghost use Rattle.std.specs.Prelude.{◌≡◌, ◌<◌, slice_index, IfOk, IfErr};

use crate::equations::{Equation, Equations, field, steps};
use crate::layout::Store;
use crate::limits::Limits;
use crate::refusals::Refusal;

// The rows that a table may have.
pub const MOST_ROWS: usize = 256;

// A row of a rule table. What it combines are rows before it.
#[derive(Clone, Copy)]
pub enum Row {
    Never,
    Always,
    Asks(Equation),
    Not(u32),
    And(u32, u32),
    IfThenElse(u32, u32, u32),
}

// A row by its words: a kind, and columns, of which those that the kind doesn't use are 0.
impl TryFrom<[u32; 4]> for Row {
    type Error = Refusal;

    fn try_from(words: [u32; 4]) -> Result<Row, Refusal>
        ensures row { IfOk result (λ row. row_words row ≡ words) }
        ensures refusal { IfErr result (λ refusal. refusal ≡ Refusal.BadRow) }
    {
        match words {
            [0, 0, 0, 0] => Ok(Row::Never),
            [1, 0, 0, 0] => Ok(Row::Always),
            [2, left, right, 0] => Ok(Row::Asks(Equation::from([left, right]))),
            [3, a, 0, 0] => Ok(Row::Not(a)),
            [4, a, b, 0] => Ok(Row::And(a, b)),
            [5, a, b, c] => Ok(Row::IfThenElse(a, b, c)),
            _ => Err(Refusal::BadRow),
        }
    }
}

impl Row {
    // A method, since with From each caller would have to name the type of the array.
    pub fn words(self) -> [u32; 4]
        ensures words { result ≡ row_words self }
        ensures kind { slice_index result 0 < 6 }
    {
        match self {
            Row::Never => [0, 0, 0, 0],
            Row::Always => [1, 0, 0, 0],
            Row::Asks(Equation { left, right }) => [2, left, right, 0],
            Row::Not(a) => [3, a, 0, 0],
            Row::And(a, b) => [4, a, b, 0],
            Row::IfThenElse(a, b, c) => [5, a, b, c],
        }
    }

    // Whether a row refers only to rows below a number.
    fn refers_below(self, r: usize) -> bool {
        let below = |row: u32| (row as usize) < r;
        match self {
            Row::Never | Row::Always | Row::Asks(_) => true,
            Row::Not(a) => below(a),
            Row::And(a, b) => below(a) && below(b),
            Row::IfThenElse(a, b, c) => below(a) && below(b) && below(c),
        }
    }
}

// Whether an equation is a question's, perhaps with the same steps more on both sides. One side of a question has no steps.
fn is_raised(equation: Equation, question: Equation) -> bool {
    field(equation.left) == field(question.left)
        && field(equation.right) == field(question.right)
        && steps(equation.left) + steps(question.right)
            == steps(equation.right) + steps(question.left)
}

// Whether the equation is a question's of the list, either way round.
fn is_listed(store: Store<'_>, equation: Equation) -> bool {
    let turned = equation.turned_round();
    Equations(store.list()).any(|question| is_raised(equation, question)
        || is_raised(turned, question))
}

// Whether zero is to have more steps than a count has: never, since no count is below zero.
fn is_below_zero(equation: Equation) -> bool {
    field(equation.right) == 0 && steps(equation.left) > steps(equation.right)
}

// Whether an equation is always or never.
fn is_settled(equation: Equation) -> bool {
    field(equation.left) == field(equation.right)
        || is_below_zero(equation)
        || is_below_zero(equation.turned_round())
}

// Limits and store are two values, since meanings and handles need no limits.
fn check_equation(limits: Limits, store: Store<'_>, equation: Equation) -> Result<(), Refusal> {
    if equation.is_beyond(limits, store.fields()) {
        return Err(Refusal::RuleTerm);
    }
    if is_settled(equation) || is_listed(store, equation) {
        return Ok(());
    }
    Err(Refusal::NotListed)
}

fn check_row(limits: Limits, store: Store<'_>, r: usize, words: [u32; 4]) -> Result<(), Refusal> {
    let row = Row::try_from(words)?;
    if !row.refers_below(r) {
        return Err(Refusal::BadRow);
    }
    match row {
        Row::Asks(equation) => check_equation(limits, store, equation),
        _ => Ok(()),
    }
}

pub fn check_table(limits: Limits, store: Store<'_>, table: &[u32]) -> Result<(), Refusal> {
    let (rows, rest) = table.as_chunks::<4>();
    if table.is_empty() {
        return Err(Refusal::EmptyTable);
    }
    if !rest.is_empty() {
        return Err(Refusal::HalfRow);
    }
    if rows.len() > MOST_ROWS {
        return Err(Refusal::TooManyRows);
    }
    for (r, words) in rows.iter().enumerate() {
        check_row(limits, store, r, *words)?;
    }
    Ok(())
}
