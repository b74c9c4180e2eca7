// What opening must answer, and the words that it must leave.
ghost use Rattle.std.specs.Prelude.{◌-◌, ◌≤◌, length};

use crate::equations::{Equation, Equations};
use crate::layout::{HEADING, Store};
use crate::limits::Limits;
use crate::orders::Order;
use crate::refusals::Refusal;
use crate::words::copy;

// What a store is opened with: its number of fields, its order, and the words of its list. The order's word, since words that are no order are opened with
// too.
#[derive(Clone, Copy)]
pub struct Opening<'a> {
    pub n: u32,
    pub order: u32,
    pub list: &'a [u32],
}

// A question by itself.
fn check_question(limits: Limits, n: u32, question: Equation) -> Result<(), Refusal> {
    if question.is_beyond(limits, n) {
        return Err(Refusal::ListedTerm);
    }
    if !question.is_question() {
        return Err(Refusal::NoQuestion);
    }
    Ok(())
}

impl<'a> Opening<'a> {
    // What opening tests first, with a list of questions and with a raw one. Gives the order.
    pub(crate) fn check_form(self, limits: Limits) -> Result<Order, Refusal> {
        if self.n > limits.fields {
            return Err(Refusal::TooManyFields);
        }
        let order = Order::try_from(self.order)?;
        if self.list.len() % 2 == 1 {
            return Err(Refusal::HalfQuestion);
        }
        Ok(order)
    }

    // The questions of the list, each of which stands after the one before it.
    fn check_questions(self, limits: Limits, order: Order) -> Result<(), Refusal> {
        let mut before = 0;
        for question in Equations(self.list) {
            check_question(limits, self.n, question)?;
            let place = order.place(question);
            if place <= before {
                return Err(Refusal::OutOfOrder);
            }
            before = place;
        }
        Ok(())
    }

    // Opening a store of so many words.
    pub(crate) fn check(self, limits: Limits, length: usize) -> Result<(), Refusal> {
        let order = self.check_form(limits)?;
        if self.list.len() / 2 > limits.questions as usize {
            return Err(Refusal::TooManyQuestions);
        }
        self.check_questions(limits, order)?;
        if length < HEADING + self.list.len() {
            return Err(Refusal::StoreTooShort);
        }
        Ok(())
    }

    // The heading of a store that has just been opened, its list, and zeros.
    pub fn write(self, store: &mut [u32]) {
        let questions = u32::try_from(self.list.len() / 2).unwrap_or(u32::MAX);
        copy(&[self.n, questions, 0, self.order], store);
        if let Some(room) = store.get_mut(HEADING..) {
            copy(self.list, room);
        }
    }
}

impl<'a> Store<'a> {
    // What a store was opened with, by its own words.
    pub fn opening(self) -> Opening<'a>
        ensures { length result.list.now ≤ length self.entry.0.now - 4 }
    {
        Opening {
            n: self.fields(),
            order: self.order(),
            list: self.list(),
        }
    }
}

// Opening a store within limits; its words afterwards go into a slice that is long enough.
pub fn expect_opened(
    limits: Limits,
    opening: Opening<'_>,
    store: &[u32],
    words: &mut [u32],
) -> Result<(), Refusal> {
    copy(store, words);
    opening.check(limits, store.len())?;
    opening.write(words);
    Ok(())
}
