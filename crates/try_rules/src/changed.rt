// A sound store with one word changed: either it is sound still, and goes by meaning, or every call refuses it.
use crate::asking::ask_handles;
use crate::chance::Chance;
use crate::hostile::refuse_all;
use crate::orders::{other_order, throw_unknown};
use crate::run::Run;
use evaluator::{Limits, ORDER_PLACE, Store, Words, copy, put};

// A word to put anywhere: mostly small; now and then a term of any steps up to the limit, or of steps around it.
fn throw_word(chance: &mut Chance) -> u32 {
    match chance.below(10) {
        0 => u32::MAX,
        1 => chance.below(32768),
        2 => chance.from_on(32672, 128),
        _ => chance.below(12),
    }
}

// Sheets are asked for up to three fields.
fn ask_changed(run: &mut Run, store: Store<'_>) {
    if !store.is_sound(Limits::INSTITUTE) {
        refuse_all(run, store.0);
    } else if store.is_covered() && store.fields() <= 3 {
        ask_handles(run, store);
    }
}

// The words of a store, one of them changed if it is there.
fn changed(store: Store<'_>, place: usize, word: u32) -> Words<512> {
    let mut words = Words::filled(0, store.0.len());
    copy(store.0, words.as_mut_slice());
    put(words.as_mut_slice(), place, word);
    words
}

fn try_word(run: &mut Run, store: Store<'_>, place: usize, word: u32) {
    let words = changed(store, place, word);
    ask_changed(run, Store(words.as_slice()));
}

// Any word at any place.
pub fn try_changed(run: &mut Run, store: Store<'_>) {
    let place = run.chance.below(100) as usize;
    let word = throw_word(&mut run.chance);
    try_word(run, store, place, word);
}

// Whether the list of a sound store is in the store's order only: with the other one it is no sound store.
fn is_in_one_order(store: Store<'_>) -> bool {
    let words = changed(store, ORDER_PLACE, other_order(store.order()));
    !Store(words.as_slice()).is_sound(Limits::INSTITUTE)
}

// The other order, and a word that is no order.
pub fn try_orders(run: &mut Run, store: Store<'_>) {
    let order = store.order();
    let unknown = throw_unknown(&mut run.chance);
    run.count_store(order, is_in_one_order(store));
    try_word(run, store, ORDER_PLACE, other_order(order));
    try_word(run, store, ORDER_PLACE, unknown);
}
