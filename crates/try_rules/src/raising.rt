// Generated lists for the logger: over up to six fields, now and then over seven or of nine questions, and some spoiled.
use crate::chance::Chance;
use crate::lists::{ShortList, throw_list};
use crate::spoiling::spoil;
use evaluator::field;

// A term whose field, if it is not zero, is so many higher.
fn raised_term(term: u32, more: u32) -> u32 {
    match field(term) {
        0 => term,
        _ => term.saturating_add(more),
    }
}

// The list over so many fields more, of which it names the last ones. It stays in its order, as field 0 stays below all others.
fn raise(list: &mut ShortList, more: u32) {
    list.n = list.n.saturating_add(more);
    for word in list.words.as_mut_slice() {
        *word = raised_term(*word, more);
    }
}

// How many fields more than n there are to be: so that they are up to six, or, once in eight times, seven.
fn throw_more(chance: &mut Chance, n: u32) -> u32 {
    let most = 7 - n.min(3);
    if chance.once_in(8) {
        chance.from_on(most, 1)
    } else {
        chance.below(most)
    }
}

// With a ninth question, S1023(n) = n - 1, which comes after all others of n fields in both orders.
fn add_ninth(list: &mut ShortList) {
    let n = list.n;
    if n >= 2 && list.words.len() == 16 {
        list.words
            .extend_from_slice(&[n.saturating_add(32736), n - 1]);
    }
}

pub fn throw_logger_list(chance: &mut Chance) -> ShortList {
    let mut list = throw_list(chance, false);
    let more = throw_more(chance, list.n);
    let has_ninth = chance.once_in(6);
    raise(&mut list, more);
    if has_ninth {
        add_ninth(&mut list);
    }
    spoil(chance, &mut list);
    list
}
