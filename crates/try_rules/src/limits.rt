// The limits of a store: 4,096 entries and one more, 127 and 128 entries written back. Those of lists and tables are document 01's case 14.
use crate::filling::{Form, filled, tree, widest};
use crate::hostile::refuse_all;
use crate::run::Run;
use crate::writing_back::write_back;
use evaluator::{Limits, Order, Refusal, Store};
use sheet::{sheet_build, sheet_negate};

// The equation of two terms as a rule.
fn build_equation(
    run: &mut Run,
    store: &mut [u32],
    left: u32,
    right: u32,
    expected: Result<u32, Refusal>,
) {
    run.expect_answer(sheet_build(store, &[2, left, right, 0]), expected);
}

// 1 = 0 takes the last entry, and again none.
fn fill_last(run: &mut Run, store: &mut [u32]) {
    build_equation(run, store, 1, 0, Ok(4097));
    build_equation(run, store, 1, 0, Ok(4097));
}

// In the full store its negation and 1 = S(0) have no room; never needs none.
fn add_to_full(run: &mut Run, store: &mut [u32]) {
    let no_room: Result<u32, Refusal> = Err(Refusal::NoRoom);
    build_equation(run, store, 1, 32, no_room);
    run.expect_answer(sheet_negate(store, 4097), no_room);
    build_equation(run, store, 33, 0, Ok(0));
}

// 4,096 entries: only the last of them is added.
fn try_full(run: &mut Run, form: Form) {
    let mut words = filled(form, 4095);
    run.agree(Store(&words).is_sound(Limits::INSTITUTE));
    fill_last(run, &mut words);
    add_to_full(run, &mut words);
    run.agree(Store(&words).used() == 4096);
    run.agree(words == filled(form, 4096));
}

// An entry more makes no sound store, however long it is.
fn try_overfull(run: &mut Run, form: Form) {
    let words = filled(form, 4097);
    run.agree(!Store(&words).is_sound(Limits::INSTITUTE));
    refuse_all(run, &words);
}

// A handle written back into so many words, and the rows that are to come out.
fn write_expecting(run: &mut Run, store: Store<'_>, handle: u32, length: usize, rows: u32) {
    let written = write_back(store, handle, length);
    written.compare(run);
    run.agree(written.answer.result == rows);
}

// 127 entries written back are 256 rows; 128 are too many.
fn try_written(run: &mut Run, order: Order) {
    let words = tree(order);
    let store = Store(&words);
    run.agree(store.is_sound(Limits::INSTITUTE));
    write_expecting(run, store, 128, 1024, 256);
    write_expecting(run, store, 128, 1023, 0);
    write_expecting(run, store, 129, 1024, 0);
}

// In both orders.
pub fn try_limits(run: &mut Run) {
    for order in [Order::Current, Order::Older] {
        try_full(run, widest(order));
        try_overfull(run, widest(order));
        try_written(run, order);
    }
}
