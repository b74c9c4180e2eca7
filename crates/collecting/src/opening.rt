// Opening a store with a raw list.
ghost use Rattle.std.specs.Prelude.{◌≡◌, ◌*◌, ◌/◌, ◌≤◌, length, take};
ghost use Rattle.collecting.specs.Needs.{words_of};
ghost use Rattle.raw_lists.specs.Limits.{most_equations};
ghost use Rattle.raw_lists.specs.OpenRaw as spec;
ghost use Rattle.store.specs.Outcome.{outcome};
ghost use Rattle.terms.specs.Limits as bounds;
ghost use Rattle.terms.specs.Order.{order_number};

use crate::collecting::collect;
use crate::questions::{MOST_EQUATIONS, MOST_WORDS, Questions};
use raw_lists::RawFault;
use store::{HEADING, write_opened};
use terms::{Limits, ListOrder, limits_of_store, terms_within};

// Opens a store with questions, if there are not too many and the store is long enough. 13 and 21 again: open itself would test once more what the list
// keeps, and needs an arm for refusals that can't come.
fn open_resulting(
    limits: Limits,
    n: u32,
    order: ListOrder,
    questions: &Questions<MOST_WORDS>,
    store: &mut [u32],
) -> Result<(), RawFault>
    ensures { outcome result store.new ≡ spec.open_resulting limits n (order_number order) (words_of questions.now) store.old }
{
    let end = 2 * questions.count;
    if (limits.questions as usize) < questions.count {
        return Err(RawFault::TooManyQuestions);
    }
    if store.len() < HEADING + end {
        return Err(RawFault::TooShort);
    }
    write_opened(n, u32::from(order), &questions.words[..end], store);
    Ok(())
}

// Opens a store with a raw list, in an order that has a number.
#[tactic(auto, unfolding(raw_lists::specs::OpenRaw::open_raw_in))]
fn open_raw_in(
    known: ListOrder,
    limits: Limits,
    n: u32,
    raw: &[u32],
    store: &mut [u32],
) -> Result<(), RawFault>
    ensures { outcome result store.new ≡ spec.open_raw_in known limits n raw.now store.old }
{
    if raw.len() % 2 == 1 {
        return Err(RawFault::OddList);
    }
    if MOST_EQUATIONS < raw.len() / 2 {
        return Err(RawFault::TooManyEquations);
    }
    let questions = collect::<MOST_WORDS>(known, terms_within(limits, n), raw)?;
    open_resulting(limits, n, known, &questions, store)
}

// Opens a store with a raw list, within limits. 11 and 18 again, with faults of its own.
#[tactic(auto, unfolding(raw_lists::specs::OpenRaw::open_raw))]
fn open_raw_within(
    limits: Limits,
    n: u32,
    order: u32,
    raw: &[u32],
    store: &mut [u32],
) -> Result<(), RawFault>
    ensures { outcome result store.new ≡ spec.open_raw limits n order raw.now store.old }
{
    if limits.terms.field.0 < n {
        return Err(RawFault::TooManyFields);
    }
    let known = ListOrder::try_from(order)?;
    open_raw_in(known, limits, n, raw, store)
}

// Opens a store for n fields and a list of equations as they come, sorted into the order that a number names.
pub fn open_raw(n: u32, order: u32, raw: &[u32], store: &mut [u32]) -> Result<(), RawFault>
    ensures { outcome result store.new ≡ spec.open_raw bounds.store_limits n order raw.now store.old }
{
    open_raw_within(limits_of_store(), n, order, raw, store)
}
