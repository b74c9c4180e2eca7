// What is true under a choice of counts.
use crate::equations::{Equation, field, steps};
use crate::layout::Store;
use crate::limits::MOST_QUESTIONS;
use crate::rules::{MOST_ROWS, Row};
use crate::words::{at, put};

// The count of a field, and 0 for field 0, which stands for zero.
fn count(counts: &[u32], field: u32) -> u32 {
    match field {
        0 => 0,
        _ => at(counts, field as usize - 1),
    }
}

fn value(counts: &[u32], term: u32) -> u64 {
    u64::from(count(counts, field(term))) + u64::from(steps(term))
}

impl Equation {
    pub fn holds(self, counts: &[u32]) -> bool {
        value(counts, self.left) == value(counts, self.right)
    }
}

// The truth of a row, from the truth of the rows before it.
fn row_truth(row: Row, truths: &[bool], counts: &[u32]) -> bool {
    let truth = |row: u32| at(truths, row as usize);
    match row {
        Row::Never => false,
        Row::Always => true,
        Row::Asks(equation) => equation.holds(counts),
        Row::Not(a) => !truth(a),
        Row::And(a, b) => truth(a) && truth(b),
        Row::IfThenElse(a, b, c) => truth(if truth(a) { b } else { c }),
    }
}

// The truth of a rule table's last row, of at most 256.
pub fn rule_truth(table: &[u32], counts: &[u32]) -> bool {
    let mut truths = [false; MOST_ROWS];
    let mut last = false;
    for (r, words) in table.as_chunks::<4>().0.iter().enumerate() {
        let row = Row::try_from(*words).unwrap_or(Row::Never);
        last = row_truth(row, &truths, counts);
        put(&mut truths, r, last);
    }
    last
}

impl Store<'_> {
    // The meaning of a handle. A path asks each question at most once, and ends at a leaf, which has no entry.
    pub fn truth(self, handle: u32, counts: &[u32]) -> bool {
        let mut at = handle;
        for _ in 0..MOST_QUESTIONS {
            let Some(i) = at.checked_sub(2) else {
                break;
            };
            let entry = self.entry(i);
            let answer = self.question(entry.question).holds(counts);
            at = if answer { entry.yes } else { entry.no };
        }
        at == 1
    }
}
