// Lists spoiled in one way or another.
use crate::chance::Chance;
use crate::lists::{List, ShortList};
use crate::orders::{other_order, throw_unknown};
use evaluator::{at, put};

impl<const N: usize> List<N> {
    // Writes a word over one of the list's, at any place.
    pub fn spoil_word(&mut self, place: usize, word: u32) {
        put(self.words.room_mut(), place, word);
    }
}

// Any place of a list.
pub fn throw_place<const N: usize>(chance: &mut Chance, list: &List<N>) -> usize {
    let length = u32::try_from(list.words.len()).unwrap_or(u32::MAX);
    chance.below(length) as usize
}

// The number of any question of a list, counted from 0.
pub fn throw_pair(chance: &mut Chance, list: &ShortList) -> usize {
    throw_place(chance, list) / 2
}

// Writes a thrown word over one of the list.
fn spoil_word(chance: &mut Chance, list: &mut ShortList, least: u32, bound: u32) {
    let place = throw_place(chance, list);
    let word = chance.from_on(least, bound);
    list.spoil_word(place, word);
}

// Turns a question round.
fn turn_pair(chance: &mut Chance, list: &mut ShortList) {
    let k = throw_pair(chance, list);
    let (pairs, _) = list.words.room_mut().as_chunks_mut::<2>();
    if let Some(pair) = pairs.get_mut(k) {
        pair.reverse();
    }
}

// Writes a question over the next one.
fn double_pair(chance: &mut Chance, list: &mut ShortList) {
    let k = throw_pair(chance, list);
    let (pairs, _) = list.words.room_mut().as_chunks_mut::<2>();
    let doubled = at(pairs, k);
    put(pairs, k.saturating_add(1), doubled);
}

// Spoils a list in one of ten ways, or leaves it as it is. A list that is given with the other order may still be good.
pub fn spoil(chance: &mut Chance, list: &mut ShortList) {
    match chance.below(24) {
        0 => list.n = 17,
        1 => list.words.set_len(list.words.len() % 40 + 1),
        2 => list.words.set_len(42),
        // steps above 1,023, and from 1,021 to 1,024
        3 => spoil_word(chance, list, 32768, 2048),
        4 => spoil_word(chance, list, 32672, 128),
        5 => spoil_word(chance, list, 0, 128),
        6 => turn_pair(chance, list),
        7 => double_pair(chance, list),
        8 | 9 => list.order = other_order(list.order),
        10 => list.order = throw_unknown(chance),
        _ => {}
    }
}
