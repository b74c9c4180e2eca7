// The logger's limits: 6 fields, 8 questions, 200 entries, and one more of each, in hand-made stores that the institute takes.
use crate::comparing::{MOST_WORDS, try_on};
use crate::filling::{Form, filled};
use crate::hostile::refuse_all;
use crate::run::Run;
use evaluator::{Call, Limits, Order, Refusal, Side, Store, USED_PLACE, Words, copy, put};

type Expected = Result<u32, Refusal>;

// A store with so many entries, and room for more.
fn filled_words(form: Form, entries: u32) -> Words<MOST_WORDS> {
    let mut words = Words::filled(0, MOST_WORDS);
    copy(&filled(form, entries), words.as_mut_slice());
    words
}

// A build, and what it must answer.
fn build(run: &mut Run, side: Side, store: &mut [u32], table: &[u32], expected: Expected) {
    let found = try_on(run, side, store, Call::Build(table));
    run.expect_answer(found, expected);
}

// The rule always, which needs no entry, and a table of no words.
fn build_none(run: &mut Run, side: Side, store: &mut [u32], always: Expected, empty: Expected) {
    build(run, side, store, &[1, 0, 0, 0], always);
    build(run, side, store, &[], empty);
}

// The rule n = 0, question 1, which needs one entry.
fn build_first(run: &mut Run, side: Side, store: &mut [u32], expected: Expected) {
    let n = Store(store).fields();
    build(run, side, store, &[2, n, 0, 0], expected);
}

// The logger refuses the store, and the institute takes it.
fn try_beyond(run: &mut Run, store: &mut [u32]) {
    let no_store = Err(Refusal::NoStore);
    build_none(run, Side::Logger, store, no_store, no_store);
    build_none(run, Side::Institute, store, Ok(1), Err(Refusal::EmptyTable));
}

fn try_form_beyond(run: &mut Run, form: Form, entries: u32) {
    let mut words = filled_words(form, entries);
    let store = Store(words.as_slice());
    run.agree(store.is_sound(Limits::INSTITUTE));
    run.agree(!store.is_sound(Limits::LOGGER));
    try_beyond(run, words.as_mut_slice());
}

// In a store with 199 entries n = 0 takes the last one on the logger, and again none; n = S(0), which needs two, has no room.
fn try_last(run: &mut Run, form: Form) {
    let mut words = filled_words(form, 199);
    let store = words.as_mut_slice();
    run.agree(Store(store).is_sound(Limits::LOGGER));
    build_first(run, Side::Logger, store, Ok(201));
    build_first(run, Side::Logger, store, Ok(201));
    build(
        run,
        Side::Logger,
        store,
        &[2, form.n, 32, 0],
        Err(Refusal::NoRoom),
    );
}

// With 200 entries n = 0 is refused on the logger, and at the institute it is handle 202. The logger then refuses the store.
fn pass_limit(run: &mut Run, store: &mut [u32]) {
    build_first(run, Side::Logger, store, Err(Refusal::NoRoom));
    build_first(run, Side::Institute, store, Ok(202));
    try_beyond(run, store);
}

// What needs no entry, both take.
fn try_full(run: &mut Run, form: Form) {
    let mut words = filled_words(form, 200);
    let store = words.as_mut_slice();
    run.agree(Store(store).is_sound(Limits::LOGGER));
    for side in [Side::Logger, Side::Institute] {
        build_none(run, side, store, Ok(1), Err(Refusal::EmptyTable));
    }
    pass_limit(run, store);
}

// Numbers of used entries whose end, or the next handle, is small in 32 bits.
const WRAPPING: [u32; 4] = [1431655762, 1431655766, 4294967294, 4294967295];

// A store of the logger's with such a number is refused by both.
fn try_wrapping(run: &mut Run, form: Form) {
    for used in WRAPPING {
        let mut words = filled_words(form, 200);
        let store = words.as_mut_slice();
        put(store, USED_PLACE, used);
        run.agree(!Store(store).is_sound(Limits::LOGGER));
        refuse_all(run, store);
    }
}

// The stores of n fields within the limits, and with one entry more.
fn try_within(run: &mut Run, n: u32, order: Order) {
    let form = Form {
        n,
        questions: 8,
        order,
    };
    try_last(run, form);
    try_full(run, form);
    try_form_beyond(run, form, 201);
    try_wrapping(run, form);
}

// With one field more, and with one question more.
fn try_wider(run: &mut Run, order: Order) {
    for (n, questions) in [(7, 8), (6, 9)] {
        let form = Form {
            n,
            questions,
            order,
        };
        try_form_beyond(run, form, 200);
    }
}

// In both orders.
pub fn try_logger_limits(run: &mut Run) {
    for order in [Order::Current, Order::Older] {
        try_within(run, 1, order);
        try_within(run, 6, order);
        try_wider(run, order);
    }
}
