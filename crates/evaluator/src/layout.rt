// The words of a store's heading and list, as documents 01 and 02 lay them out.
ghost use Rattle.std.specs.Prelude.{◌-◌, ◌≤◌, length};

use crate::equations::Equation;
use crate::limits::Limits;
use crate::words::at;

// The words of a store, or words that are to be one.
#[derive(Clone, Copy)]
pub struct Store<'a>(pub &'a [u32]);

// The words of a store's heading, after which its list begins.
pub const HEADING: usize = 4;

// The place of the word that says how many entries are used.
pub const USED_PLACE: usize = 2;

// The place of the word that names the order.
pub const ORDER_PLACE: usize = 3;

impl<'a> Store<'a> {
    pub fn fields(self) -> u32 {
        at(self.0, 0)
    }

    pub fn questions(self) -> u32 {
        at(self.0, 1)
    }

    pub fn used(self) -> u32 {
        at(self.0, USED_PLACE)
    }

    // The order that the list is in by the store's own words.
    pub fn order(self) -> u32 {
        at(self.0, ORDER_PLACE)
    }

    // The words of the list, if it has all of them.
    pub(crate) fn list(self) -> &'a [u32]
        ensures { length result.now ≤ length self.entry.0.now - 4 }
    {
        let end = HEADING + 2 * self.questions() as usize;
        self.0.get(HEADING..end).unwrap_or(&[])
    }

    // Question k, counted from 1.
    pub fn question(self, k: u32) -> Equation {
        let place = HEADING + 2 * k as usize - 2;
        Equation {
            left: at(self.0, place),
            right: at(self.0, place + 1),
        }
    }
}
