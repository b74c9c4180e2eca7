// A call at the institute or on the logger, made and compared with the evaluator within the limits of that side.
use crate::run::Run;
use evaluator::{Call, Refusal, Side, Store, Words, expect_added};
use sheet::{Answer, sheet_build, sheet_choose, sheet_join, sheet_logger_build, sheet_negate};

// The most words of a store whose words afterwards are compared.
pub const MOST_WORDS: usize = 1024;

// A call at the institute.
pub fn perform(store: &mut [u32], call: Call<'_>) -> Answer {
    match call {
        Call::Build(table) => sheet_build(store, table),
        Call::Negate(a) => sheet_negate(store, a),
        Call::Join(a, b) => sheet_join(store, a, b),
        Call::Choose(a, b, c) => sheet_choose(store, a, b, c),
    }
}

// An answer that no call gives.
const NO_ANSWER: Answer = Answer {
    number: u32::MAX,
    result: u32::MAX,
};

// Build is the logger's only such call, and no other is tried there: it would differ.
fn perform_on(side: Side, store: &mut [u32], call: Call<'_>) -> Answer {
    match (side, call) {
        (Side::Institute, _) => perform(store, call),
        (Side::Logger, Call::Build(table)) => sheet_logger_build(store, table),
        (Side::Logger, _) => NO_ANSWER,
    }
}

// Where the evaluator's grid does not cover the list, it knows only that nothing but want of room can refuse the call.
pub fn try_on(run: &mut Run, side: Side, store: &mut [u32], call: Call<'_>) -> Answer {
    let mut words = Words::<MOST_WORDS>::filled(0, store.len());
    let expected = expect_added(side.limits(), Store(store), call, words.as_mut_slice());
    let known = Store(store).knows(expected);
    let found = perform_on(side, store, call);
    if known {
        run.expect_answer(found, expected);
        run.agree(words.as_slice() == &*store);
    } else {
        run.agree(found.number == 0 || found.number == Refusal::NoRoom.number());
    }
    found
}
