// Opening a store.
ghost use Rattle.std.specs.Prelude.{◌≡◌, ◌++◌, ◌+◌, ◌*◌, ◌/◌, ◌<◌, ◌≤◌, ◌^◌, length, take, drop};
ghost use Rattle.terms.specs.Order.{order_of};
ghost use Rattle.store.specs.Layout.{heading_length, question_in};
ghost use Rattle.terms.specs.Limits as bounds;
ghost use Rattle.store.specs.Open as spec;
ghost use Rattle.store.specs.Outcome.{outcome};

use crate::answer::OpenFault;
use crate::words::{HEADING, clear_from, write_heading};
use terms::{
    Equation, Limits, ListOrder, TermLimits, allows, is_simplified, limits_of_store, precedes,
    terms_within,
};

// The k-th question of a list of term words, counted from 0. The bound is of a place and a list together, so it is an invariant of neither.
pub fn question_in(list: &[u32], k: usize) -> Equation
    requires { 2 * k + 2 ≤ length list.now }
    ensures { result ≡ question_in list.now k }
{
    Equation::of_words(list[2 * k], list[2 * k + 1])
}

// Whether the k-th question stands above the one before it in an order; the first has none before it.
fn above_last(order: ListOrder, list: &[u32], k: usize) -> bool
    requires { 2 * k + 2 ≤ length list.now }
    ensures { result ≡ spec.above_last (order_of order) list.now k }
{
    k == 0 || precedes(order, question_in(list, k - 1), question_in(list, k))
}

// The rule that the k-th question breaks.
#[tactic(auto, unfolding(crate::specs::Open::question_fault))]
fn question_fault(
    order: ListOrder,
    limits: TermLimits,
    list: &[u32],
    k: usize,
) -> Result<(), OpenFault>
    requires { 2 * k + 2 ≤ length list.now }
    ensures { result ≡ spec.question_fault (order_of order) limits list.now k }
{
    let q = question_in(list, k);
    if !(allows(limits, q.left) && allows(limits, q.right)) {
        return Err(OpenFault::OutOfLimits);
    }
    if !is_simplified(q) {
        return Err(OpenFault::NotSimplified);
    }
    if !above_last(order, list, k) {
        return Err(OpenFault::NotAbove);
    }
    Ok(())
}

// The first rule that a list of term words breaks, question by question.
pub fn list_fault(order: ListOrder, limits: TermLimits, list: &[u32]) -> Result<(), OpenFault>
    ensures { result ≡ spec.list_fault (order_of order) limits list.now (length list.now / 2) 0 }
{
    for k in 0..list.len() / 2 {
        question_fault(order, limits, list, k)?;
    }
    Ok(())
}

// What opening a store of so many words answers about a list in an order.
#[tactic(auto, unfolding(crate::specs::Open::opening_in))]
fn opening_in(
    order: ListOrder,
    limits: Limits,
    n: u32,
    list: &[u32],
    words: usize,
) -> Result<(), OpenFault>
    ensures { result ≡ spec.opening_in order limits n list.now words }
{
    if list.len() % 2 == 1 {
        return Err(OpenFault::OddList);
    }
    if (limits.questions as usize) < list.len() / 2 {
        return Err(OpenFault::TooManyQuestions);
    }
    list_fault(order, terms_within(limits, n), list)?;
    if words < HEADING + list.len() {
        return Err(OpenFault::TooShort);
    }
    Ok(())
}

// What opening a store of so many words answers. The number of fields, the order and the list stay apart: C lends them so, and
// a struct of three would be taken apart in each body and named in each clause.
#[tactic(auto, unfolding(crate::specs::Open::opening))]
fn first_fault(
    limits: Limits,
    n: u32,
    order: u32,
    list: &[u32],
    words: usize,
) -> Result<(), OpenFault>
    ensures { result ≡ spec.opening limits n order list.now words }
{
    if limits.terms.field.0 < n {
        return Err(OpenFault::TooManyFields);
    }
    let known = ListOrder::try_from(order)?;
    opening_in(known, limits, n, list, words)
}

// Writes the list behind the heading. A loop and no `copy_from_slice`, which for a length that is known only when it runs calls
// `memmove`: the library promises to call `memcpy` and `memset` alone.
fn write_list(list: &[u32], store: &mut [u32])
    requires { heading_length + length list.now ≤ length store.old }
    ensures { store.new
        ≡ take heading_length store.old ++ list.now ++ drop (heading_length + length list.now) store.old }
{
    for i in 0..list.len() {
        store[HEADING + i] = list[i];
    }
}

// Writes a store with no entries.
#[tactic(auto, unfolding(crate::specs::Open::opened_words))]
pub fn write_opened(n: u32, order: u32, list: &[u32], store: &mut [u32])
    requires list_in_bounds { heading_length + length list.now ≤ length store.old }
    requires list_len_bound { length list.now / 2 < 2 ^ 32 }
    ensures { store.new ≡ spec.opened_words n order list.now (length store.old) }
{
    write_heading(n, (list.len() / 2) as u32, order, store);
    write_list(list, store);
    clear_from(store, HEADING + list.len());
}

// Opens a store within limits.
#[tactic(auto, unfolding(crate::specs::Open::open_store))]
pub fn open_within(
    limits: Limits,
    n: u32,
    order: u32,
    list: &[u32],
    store: &mut [u32],
) -> Result<(), OpenFault>
    ensures { outcome result store.new ≡ spec.open_store limits n order list.now store.old }
{
    first_fault(limits, n, order, list, store.len())?;
    write_opened(n, order, list, store);
    Ok(())
}

// Opens a store for n fields and a list of questions in the order that a number names.
pub fn open(n: u32, order: u32, list: &[u32], store: &mut [u32]) -> Result<(), OpenFault>
    ensures { outcome result store.new ≡ spec.open_store bounds.store_limits n order list.now store.old }
{
    open_within(limits_of_store(), n, order, list, store)
}
