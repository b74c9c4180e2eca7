// Words that are no store: every call that takes a store answers 22 and leaves the words as they are, the logger's build as well.
use crate::asking::{ask_example, ask_read, ask_verdict};
use crate::comparing::perform;
use crate::filling::FULL_WORDS;
use crate::run::Run;
use crate::writing_back::write_back;
use evaluator::{Call, Limits, Refusal, Store, Words, first, put};
use sheet::sheet_logger_build;

// The words of a sound store to break.
const SIZE: usize = 26;

// Case 6's store, with room for one entry more, and one word left over.
const CASE_6: [u32; SIZE] = [
    3, 3, 4, 0, 2, 1, 3, 1, 3, 2, 2, 1, 0, 3, 1, 0, 2, 0, 3, 1, 2, 4, 0, 0, 0, 0,
];

// A place, and the word to write there.
#[derive(Clone, Copy)]
struct Change(usize, u32);

// The ways to break that store.
const WAYS: [&[Change]; 33] = [
    // n above 16, and a field above n
    &[Change(0, 17)],
    &[Change(0, 2)],
    // more than 20 questions, and more than there are words for
    &[Change(1, 21)],
    &[Change(1, 12)],
    // numbers of questions whose double, or the start of the entries, is small in 32 bits
    &[Change(1, 2147483646)],
    &[Change(1, 2147483647)],
    &[Change(1, 2147483648)],
    &[Change(1, 4294967295)],
    // orders that are none
    &[Change(3, 2)],
    &[Change(3, 4294967295)],
    // a list that is in document 01's order only, given as one in the older order; and the other way round
    &[Change(3, 1), Change(6, 35)],
    &[Change(6, 3), Change(7, 2), Change(8, 35), Change(9, 1)],
    // steps above 1,023, always, never, and steps on both sides
    &[Change(5, 32769)],
    &[Change(5, 2)],
    &[Change(5, 34)],
    &[Change(4, 34), Change(5, 33)],
    // not in order, and one question twice
    &[Change(4, 3), Change(6, 2)],
    &[Change(9, 1)],
    // more used than there is room for
    &[Change(2, 6)],
    // used entries whose end, or the next handle, is small in 32 bits
    &[Change(2, 1431655762)],
    &[Change(2, 1431655766)],
    &[Change(2, 4294967294)],
    &[Change(2, 4294967295)],
    // a question number of 0, and one above q
    &[Change(10, 0)],
    &[Change(10, 4)],
    // an entry that names itself, and a later one
    &[Change(20, 5)],
    &[Change(20, 6)],
    // equal handles
    &[Change(11, 0)],
    // a question number that is not below those of the entries it names
    &[Change(19, 2)],
    // an entry twice
    &[Change(2, 5), Change(22, 1), Change(23, 2), Change(24, 4)],
    // words after the used entries: in the room, and after it
    &[Change(22, 7)],
    &[Change(25, 1)],
    // one entry fewer used than there are
    &[Change(2, 3)],
];

// The store broken in one way.
fn broken(way: &[Change]) -> [u32; SIZE] {
    let mut store = CASE_6;
    for Change(place, word) in way {
        put(&mut store, *place, *word);
    }
    store
}

// What each call must answer.
const NO_STORE: Result<u32, Refusal> = Err(Refusal::NoStore);

// A table that is none.
const TABLE: [u32; 3] = [7, 7, 7];

// The calls that add, of handles that are there or not, on a copy of the words.
fn refuse_calls(run: &mut Run, words: &mut [u32]) {
    for call in [
        Call::Build(&TABLE),
        Call::Negate(9),
        Call::Join(9, 0),
        Call::Choose(9, 0, 1),
    ] {
        run.expect_answer(perform(words, call), NO_STORE);
    }
    run.expect_answer(sheet_logger_build(words, &TABLE), NO_STORE);
}

// All calls on words that the evaluator doesn't take for a sound store, of which none changes.
pub fn refuse_all(run: &mut Run, words: &[u32]) {
    let store = Store(words);
    let mut copied = Words::<FULL_WORDS>::new();
    ask_verdict(run, store, 9);
    ask_read(run, store, 9, &[1]);
    ask_example(run, store, 9, 3);
    write_back(store, 9, 2).compare(run);
    copied.extend_from_slice(words);
    refuse_calls(run, copied.as_mut_slice());
    run.agree(copied.as_slice() == words);
}

pub fn try_all_broken(run: &mut Run) {
    for way in WAYS {
        let store = broken(way);
        run.agree(!Store(&store).is_sound(Limits::INSTITUTE));
        refuse_all(run, &store);
    }
}

// Beginnings of that store: its list or its entries are cut.
pub fn try_all_cut(run: &mut Run) {
    for size in 0..22 {
        refuse_all(run, first(&CASE_6, size));
    }
}
