// What verdict, example and read answer about a handle, against the evaluator. Run, store and handle are no struct: the run outlives each store, and some
// calls take several handles of one store.
ghost use Rattle.std.specs.Prelude.{◌≤◌};

use crate::calls::throw_handle;
use crate::chance::Chance;
use crate::run::Run;
use evaluator::{BLANK, Store, expect_example, expect_read, expect_verdict, first, is_example};
use sheet::{sheet_example, sheet_read, sheet_verdict};

pub fn ask_verdict(run: &mut Run, store: Store<'_>, handle: u32) {
    run.expect_answer(
        sheet_verdict(store.0, handle),
        expect_verdict(store, handle).map(u32::from),
    );
}

// No sheet is thrown that has more fillings than the evaluator tries. If one had, that would count as a difference, and the answer be passed over.
pub fn ask_read(run: &mut Run, store: Store<'_>, handle: u32, sheet: &[u16]) {
    let found = sheet_read(store.0, handle, sheet);
    let expected = expect_read(store, handle, sheet);
    run.agree(expected.is_some());
    if let Some(expected) = expected {
        run.expect_answer(found, expected.map(u32::from));
    }
    if found.number == 0 && sheet.contains(&BLANK) {
        run.blanks.count(found.result);
    }
}

fn compare_example(run: &mut Run, store: Store<'_>, handle: u32, counts: &mut [u16]) {
    let expected = expect_example(store, handle, counts.len());
    let found = sheet_example(store.0, handle, counts);
    run.expect_number(found.number, expected.map(|_| 0));
    run.agree(is_example(expected, counts));
}

// An example in a slice of so many counts.
pub fn ask_example(run: &mut Run, store: Store<'_>, handle: u32, length: usize)
    requires { length ≤ 4 }
{
    let mut counts = [7; 4];
    compare_example(run, store, handle, &mut counts[..length]);
}

// The length of a slice for a sheet: n counts, now and then one more or fewer.
fn throw_length(chance: &mut Chance, store: Store<'_>) -> usize
    ensures { result ≤ 4 }
{
    let n = store.fields().min(3) as usize;
    match chance.below(10) {
        0 => n + 1,
        1 => n / 2,
        _ => n,
    }
}

// The gap of one of the store's questions, at which its answer changes if the other side is zero.
fn throw_gap(chance: &mut Chance, store: Store<'_>) -> u32 {
    let k = chance.below(store.questions()) + 1;
    store.question(k).gap()
}

// A count in the grid or far beyond it, to the largest; now and then a blank.
fn throw_count(chance: &mut Chance, store: Store<'_>) -> u16 {
    let count = match chance.below(8) {
        0 => u32::from(BLANK),
        1 => chance.from_on(65520, 16),
        2 => chance.below(32768),
        3 | 4 => throw_gap(chance, store),
        _ => chance.below(8),
    };
    u16::try_from(count).unwrap_or(u16::MAX)
}

fn ask_thrown_read(run: &mut Run, store: Store<'_>, handle: u32) {
    let a = throw_count(&mut run.chance, store);
    let b = throw_count(&mut run.chance, store);
    let c = throw_count(&mut run.chance, store);
    let length = throw_length(&mut run.chance, store);
    ask_read(run, store, handle, first(&[a, b, c, 1], length));
}

// One handle of the store, or one that it has not.
fn ask_thrown(run: &mut Run, store: Store<'_>) {
    let handle = throw_handle(&mut run.chance, store);
    let length = throw_length(&mut run.chance, store);
    ask_verdict(run, store, handle);
    ask_example(run, store, handle, length);
    ask_thrown_read(run, store, handle);
    ask_thrown_read(run, store, handle);
}

// Some handles of the store, whoever made their entries.
pub fn ask_handles(run: &mut Run, store: Store<'_>) {
    for _ in 0..8 {
        ask_thrown(run, store);
    }
}
