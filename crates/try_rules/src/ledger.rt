// The ledger: the handles of never and always, and those that accepted calls returned. Two are equal exactly if they are alike in truth at
// all sheets.
use crate::run::Run;
use evaluator::{Store, Words, first};

// The ledger of a store that has just been opened.
pub fn open_ledger(run: &mut Run) {
    run.ledger = Words::new();
    run.ledger.extend_from_slice(&[0, 1]);
}

// A handle with those before it.
fn compare_with(run: &mut Run, store: Store<'_>, before: &[u32], handle: u32) {
    for other in before {
        run.agree((handle == *other) == store.are_alike(handle, *other));
    }
}

pub fn compare_pairs(run: &mut Run, store: Store<'_>) {
    let ledger = run.ledger;
    let handles = ledger.as_slice();
    for (i, handle) in handles.iter().enumerate() {
        compare_with(run, store, first(handles, i), *handle);
    }
}
