// The orders of questions, the words that name them, and comparing questions in them.
ghost use Rattle.std.specs.Prelude.{◌≡◌};
ghost use Rattle.terms.specs.Order as spec;

use crate::term::Equation;

// An order in which the questions of a list can stand: document 01's, or that of the older books.
#[derive(Clone, Copy, Debug, PartialEq, Eq)]
pub enum ListOrder {
    FieldsFirst,
    LeftFirst,
}

// What a word is that names no order.
#[derive(Clone, Copy, Debug, PartialEq, Eq)]
pub struct UnknownOrder;

impl From<ListOrder> for u32 {
    // The word that names an order.
    fn from(order: ListOrder) -> u32
        ensures { result ≡ spec.order_number order }
    {
        match order {
            ListOrder::FieldsFirst => 0,
            ListOrder::LeftFirst => 1,
        }
    }
}

impl TryFrom<u32> for ListOrder {
    type Error = UnknownOrder;

    // The order that a word names.
    #[tactic(auto, unfolding(crate::specs::Order::order_named))]
    fn try_from(word: u32) -> Result<ListOrder, UnknownOrder>
        ensures { result ≡ spec.order_named word }
    {
        match word {
            0 => Ok(ListOrder::FieldsFirst),
            1 => Ok(ListOrder::LeftFirst),
            _ => Err(UnknownOrder),
        }
    }
}

// The numbers that an order compares, in turn.
fn numbers_of(order: ListOrder, e: Equation) -> [u32; 4]
    ensures { result ≡ spec.order_of order e }
{
    let Equation { left, right } = e;
    match order {
        ListOrder::FieldsFirst => [left.field.0, right.field.0, left.steps.0, right.steps.0],
        ListOrder::LeftFirst => [left.field.0, left.steps.0, right.field.0, right.steps.0],
    }
}

// Whether p stands before q in an order of questions: the first numbers that differ decide.
pub fn precedes(order: ListOrder, p: Equation, q: Equation) -> bool
    ensures { result ≡ spec.before (spec.order_of order) p q }
{
    numbers_of(order, p) < numbers_of(order, q)
}
