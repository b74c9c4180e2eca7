// The orders that a list may be in, and where a question stands in each.
ghost use Rattle.std.specs.Prelude.{◌≡◌, ◌<◌, ◌^◌, IsOk};

use crate::equations::{Equation, field, steps};
use crate::refusals::Refusal;

// Document 01's, and that of the older books.
#[derive(Clone, Copy, Debug, PartialEq, Eq)]
pub enum Order {
    Current,
    Older,
}

impl TryFrom<u32> for Order {
    type Error = Refusal;

    fn try_from(word: u32) -> Result<Order, Refusal>
        ensures { IsOk result → word < 2 }
    {
        match word {
            0 => Ok(Order::Current),
            1 => Ok(Order::Older),
            _ => Err(Refusal::NoOrder),
        }
    }
}

impl From<Order> for u32 {
    fn from(order: Order) -> u32
        ensures current { (order ≡ Order.Current) → result ≡ 0 }
        ensures older { (order ≡ Order.Older) → result ≡ 1 }
    {
        match order {
            Order::Current => 0,
            Order::Older => 1,
        }
    }
}

// How many numbers of steps a term can have.
const STEP_COUNTS: u64 = 1 << 27;

const FIELDS: u64 = 32;

impl Order {
    // The two numbers of a question that the orders compare in different turn, as the digits of one number: the right field before the left steps, and
    // after them.
    fn middle(self, question: Equation) -> u64
        ensures { result < 2 ^ 32 }
    {
        let left_steps = u64::from(steps(question.left));
        let right_field = u64::from(field(question.right));
        match self {
            Order::Current => right_field * STEP_COUNTS + left_steps,
            Order::Older => left_steps * FIELDS + right_field,
        }
    }

    // Where a question stands: left field, the two numbers between, and right steps as the digits of one number. A question's left field is above 0,
    // and so is its place.
    pub(crate) fn place(self, question: Equation) -> u64 {
        let left_field = u64::from(field(question.left));
        let right_steps = u64::from(steps(question.right));
        (left_field * (FIELDS * STEP_COUNTS) + self.middle(question)) * STEP_COUNTS + right_steps
    }
}
