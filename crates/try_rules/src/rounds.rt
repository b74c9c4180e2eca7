// Generated lists, and generated stores, each with some calls.
ghost use Rattle.std.specs.Prelude.{◌≤◌};

use crate::asking::ask_handles;
use crate::calls::try_calls;
use crate::chance::Chance;
use crate::changed::{try_changed, try_orders};
use crate::ledger::{compare_pairs, open_ledger};
use crate::lists::{ShortList, throw_list};
use crate::opening::try_opening;
use crate::run::Run;
use crate::spoiling::spoil;
use crate::writing_back::write_handles;
use evaluator::{HEADING, Limits, Side, Store, Words};

// A list, good or spoiled once or twice, and a store of any length.
fn list_round(run: &mut Run) {
    let chance = &mut run.chance;
    let length = chance.below(60) as usize;
    let far = chance.once_in(2);
    let mut list = throw_list(chance, far);
    spoil(chance, &mut list);
    spoil(chance, &mut list);
    let mut store = Words::<64>::filled(7, length);
    try_opening(run, Side::Institute, list.opening(), store.as_mut_slice());
}

pub fn list_rounds(run: &mut Run) {
    for _ in 0..2000 {
        list_round(run);
    }
}

// The length of a store for a list: with room for some thirty entries, and every third time for more than there ever are.
fn throw_length(chance: &mut Chance, list: &ShortList) -> usize
    ensures { result ≤ 512 }
{
    let more = chance.below(90) as usize;
    let spare = if chance.once_in(3) { 350 } else { 0 };
    HEADING + list.words.len() + more + spare
}

// What is asked of a store after its calls, and once more when a word is changed, also the one that names its order.
fn ask_store(run: &mut Run, store: Store<'_>) {
    compare_pairs(run, store);
    run.agree(store.is_sound(Limits::INSTITUTE));
    ask_handles(run, store);
    write_handles(run, store);
    try_changed(run, store);
    try_orders(run, store);
}

// One generated store with its list, and the calls on it.
fn store_round(run: &mut Run) {
    let list = throw_list(&mut run.chance, false);
    let length = throw_length(&mut run.chance, &list);
    let mut words = Words::<512>::filled(7, length);
    let store = words.as_mut_slice();
    try_opening(run, Side::Institute, list.opening(), store);
    open_ledger(run);
    try_calls(run, store);
    ask_store(run, Store(store));
}

pub fn store_rounds(run: &mut Run) {
    for _ in 0..400 {
        store_round(run);
    }
}
