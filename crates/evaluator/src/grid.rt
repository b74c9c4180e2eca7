// The sheets of no count, of one count up to 1,024, of two counts below ten, or of more, of which the last three are below ten and the others 0. They
// are numbered in the order that compares field 1 first: one count is the number, and more are its digits. They are a complete test of any rule over a
// list that names m fields, all of them among those that vary, if they have every count up to m × (K + 1), K being the largest gap without its sign: so
// they are for any list of one field, and for one of two or three fields if that number is at most nine.
use crate::equations::{Equation, Equations, field};
use crate::layout::Store;
use crate::limits::{MOST_FIELDS, MOST_STEPS};
use crate::refusals::Refusal;
use crate::words::put;

// A sheet's n counts, and zeros behind them. An array for the most fields: sixteen counts are wanted without a store too, and of a store the number of
// fields stands in the store.
pub type Sheet = [u16; MOST_FIELDS as usize];

// The sheet of a number for n fields.
fn sheet_of(n: u32, number: u32) -> Sheet {
    let mut sheet = [0; MOST_FIELDS as usize];
    if n == 1 {
        put(&mut sheet, 0, u16::try_from(number).unwrap_or(u16::MAX));
        return sheet;
    }
    let digits = [number % 10, number / 10 % 10, number / 100 % 10];
    for (place, digit) in (0..n).rev().zip(digits) {
        put(&mut sheet, place as usize, digit as u16);
    }
    sheet
}

// The largest gap for n fields.
fn most_gap(n: u32) -> u32 {
    match n {
        0 | 1 => MOST_STEPS,
        2 => 3,
        _ => 2,
    }
}

// Whether a term's field is zero or one of the last three.
fn varies(n: u32, term: u32) -> bool {
    field(term) == 0 || field(term) + 3 > n
}

// Whether a question names only fields that vary, with a gap that is not too large.
fn is_within(n: u32, question: Equation) -> bool {
    varies(n, question.left) && varies(n, question.right) && question.gap() <= most_gap(n)
}

// The most questions of a list that diagrams are drawn for.
pub const MOST_DRAWN: u32 = 8;

impl Store<'_> {
    // How many sheets there are.
    pub fn sheets(self) -> u32 {
        match self.fields() {
            0 => 1,
            1 => MOST_STEPS + 2,
            2 => 100,
            _ => 1000,
        }
    }

    pub fn sheet(self, number: u32) -> Sheet {
        sheet_of(self.fields(), number)
    }

    // Whether the evaluator can tell the answers about a sound store: the grid is a complete test of the rules over its list, and diagrams are drawn
    // for so many questions.
    pub fn is_covered(self) -> bool {
        let n = self.fields();
        self.questions() <= MOST_DRAWN
            && Equations(self.list()).all(|question| is_within(n, question))
    }

    // Whether the evaluator knows the answer to a call on a store, by what it expects: it knows the refusals of a store, a rule, a handle or a length.
    // Acceptance and the refusals of what a call can't do go by all sheets, so these it knows where its grid covers the store's list.
    pub fn knows(self, expected: Result<u32, Refusal>) -> bool {
        match expected {
            Ok(_) | Err(Refusal::NoRoom | Refusal::Never) => self.is_covered(),
            Err(_) => true,
        }
    }
}
