// Generated calls of build, negate, join and choose, against the evaluator.
use crate::chance::Chance;
use crate::comparing::try_on;
use crate::rules::throw_table;
use crate::run::Run;
use evaluator::{Call, Side, Store, counts_of, first};
use sheet::sheet_read;

// Any handle of the store, now and then one that it has not.
pub fn throw_handle(chance: &mut Chance, store: Store<'_>) -> u32 {
    let handles = store.used().min(4096) + 2;
    match chance.below(40) {
        // one of the next handles that would be there
        0 => chance.from_on(handles, 3),
        1 => u32::MAX,
        _ => chance.below(handles),
    }
}

// A call with a table for it, or with handles.
fn throw_call<'a>(chance: &mut Chance, store: Store<'_>, table: &'a [u32]) -> Call<'a> {
    let kind = chance.below(5);
    let a = throw_handle(chance, store);
    let b = throw_handle(chance, store);
    let c = throw_handle(chance, store);
    match kind {
        0 | 1 => Call::Build(table),
        2 => Call::Negate(a),
        3 => Call::Join(a, b),
        _ => Call::Choose(a, b, c),
    }
}

// What read answers for the diagram of an accepted call, at a sheet of the grid.
fn compare_read(run: &mut Run, store: Store<'_>, call: Call<'_>, handle: u32, number: u32) {
    let sheet = store.sheet(number);
    let found = sheet_read(store.0, handle, first(&sheet, store.fields() as usize));
    let truth = call.truth(store, &counts_of(&sheet));
    run.expect_answer(found, Ok(u32::from(truth)));
}

// The diagram of an accepted call against the meaning that it stands for, at all sheets of the grid, and by read at every sixteenth, from the fourth on.
// Its handle is entered into the ledger.
fn compare_accepted(run: &mut Run, store: Store<'_>, call: Call<'_>, handle: u32) {
    run.ledger.push(handle);
    run.count(store.sheets(), store.differences(call, handle));
    for number in (0..store.sheets()).filter(|number| number % 16 == 3) {
        compare_read(run, store, call, handle, number);
    }
}

// One generated call.
fn try_next(run: &mut Run, store: &mut [u32]) {
    let table = throw_table(&mut run.chance, Store(store));
    let call = throw_call(&mut run.chance, Store(store), table.as_slice());
    let found = try_on(run, Side::Institute, store, call);
    if found.number == 0 {
        compare_accepted(run, Store(store), call, found.result);
    }
}

pub fn try_calls(run: &mut Run, store: &mut [u32]) {
    for _ in 0..12 {
        try_next(run, store);
    }
}
