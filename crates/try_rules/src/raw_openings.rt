// Generated raw lists, opened against the evaluator; and what remains of them, opened as a list.
ghost use Rattle.std.specs.Prelude.{◌≤◌};

use crate::chance::Chance;
use crate::lists::{List, ShortList, throw_list};
use crate::orders::throw_unknown;
use crate::run::Run;
use crate::spoiling::{throw_pair, throw_place};
use evaluator::{
    Equation, HEADING, Opening, Refusal, Store, Words, at, expect_raw_opened, found_in,
};
use sheet::{sheet_open, sheet_open_raw};

// Two equations more than a raw list may hold.
const MOST_THROWN: u32 = 66;

const MOST_THROWN_WORDS: usize = 2 * MOST_THROWN as usize;

type RawList = List<MOST_THROWN_WORDS>;

// The words of a store with as many questions, and some more.
const MOST_STORE: usize = HEADING + MOST_THROWN_WORDS + 8;

// One of the list's questions; or, if there are to be many, one of forty questions about field 1.
fn throw_meant(chance: &mut Chance, list: &ShortList, many: bool) -> Equation {
    let number = chance.below(40);
    let k = throw_pair(chance, list);
    let (pairs, _) = list.words.room().as_chunks::<2>();
    if many {
        Equation {
            left: 1,
            right: 32 * number,
        }
    } else {
        Equation::from(at(pairs, k))
    }
}

// An equation that is dropped: zero or one of n fields with itself, always or, a step apart, never; or it with two steps and zero, never.
fn throw_dropped(chance: &mut Chance, n: u32) -> Equation {
    let field = chance.below(n.saturating_add(1));
    let more = chance.below(3);
    Equation {
        left: 32 * more + field,
        right: if more == 2 { 0 } else { field },
    }
}

// Steps for both sides: none or some, at most so many that no term goes above the limit.
fn throw_more(chance: &mut Chance) -> u32
    ensures { result ≤ 980 }
{
    let most = if chance.once_in(2) { 0 } else { 980 };
    chance.below(most)
}

// The equation as it is or turned round, with steps added on both sides.
fn respelled(chance: &mut Chance, meant: Equation) -> Equation {
    let as_it_is = chance.once_in(2);
    let size = 32 * throw_more(chance);
    let raised = Equation {
        left: meant.left.saturating_add(size),
        right: meant.right.saturating_add(size),
    };
    if as_it_is {
        raised
    } else {
        raised.turned_round()
    }
}

// An equation of a raw list: one in five is dropped.
fn throw_equation(chance: &mut Chance, list: &ShortList, many: bool) -> Equation {
    let meant = if chance.once_in(5) {
        throw_dropped(chance, list.n)
    } else {
        throw_meant(chance, list, many)
    };
    respelled(chance, meant)
}

// A raw list of up to 66 equations: few questions over and over, or many.
fn throw_raw(chance: &mut Chance) -> RawList {
    let list = throw_list(chance, false);
    let count = chance.below(MOST_THROWN + 1);
    let many = chance.once_in(3);
    let mut words = Words::new();
    for _ in 0..count {
        let equation = throw_equation(chance, &list, many);
        words.extend_from_slice(&equation.words());
    }
    List {
        n: list.n,
        order: list.order,
        words,
    }
}

// Writes a word over one of the list's, at any place.
fn spoil_word(chance: &mut Chance, raw: &mut RawList, word: u32) {
    let place = throw_place(chance, raw);
    raw.spoil_word(place, word);
}

// Spoils a raw list in one of six ways, or leaves it as it is.
fn spoil_raw(chance: &mut Chance, raw: &mut RawList) {
    match chance.below(20) {
        0 => raw.n = 17,
        1 => raw.words.set_len(raw.words.len() % 128 + 1),
        2 => raw.order = throw_unknown(chance),
        // 1,024 steps, a field above n, and a word that is far above all limits
        3 => spoil_word(chance, raw, 32769),
        4 => spoil_word(chance, raw, 4),
        5 => spoil_word(chance, raw, u32::MAX),
        _ => {}
    }
}

// What the raw lists met: 17; 14 though there were more than 20 questions, for which 13 has to wait; and an accepted list of which nothing remains.
#[derive(Clone, Copy, Default)]
pub struct RawTally {
    pub too_many: u32,
    pub late: u32,
    pub nothing: u32,
}

impl RawTally {
    // An opening by the number that it answered, and by the questions that remain.
    fn count(&mut self, number: u32, remain: usize) {
        if number == Refusal::TooManyEquations.number() {
            self.too_many = self.too_many.saturating_add(1);
        } else if number == Refusal::ListedTerm.number() && remain > 20 {
            self.late = self.late.saturating_add(1);
        } else if number == 0 && remain == 0 {
            self.nothing = self.nothing.saturating_add(1);
        }
    }
}

// The list that a store has, opened as a list on other words: accepted, and the same words.
fn open_listed(run: &mut Run, store: Store<'_>) {
    let mut words = Words::<MOST_STORE>::filled(9, store.0.len());
    let Opening { n, order, list } = store.opening();
    let found = sheet_open(n, order, list, words.as_mut_slice());
    run.agree(found.number == 0 && words.as_slice() == store.0);
}

// Gives the number of the answer.
fn try_raw_opening(run: &mut Run, raw: Opening<'_>, store: &mut [u32]) -> u32 {
    let mut words = Words::<MOST_STORE>::filled(0, store.len());
    let expected = expect_raw_opened(raw, store, words.as_mut_slice());
    let found = sheet_open_raw(raw.n, raw.order, raw.list, store);
    run.expect_number(found.number, expected);
    run.agree(found.result == 0 && words.as_slice() == &*store);
    if found.number == 0 {
        open_listed(run, Store(store));
    }
    found.number
}

// One raw list, on a store that is up to three words too short for what remains of it, or up to six longer.
fn raw_round(run: &mut Run) {
    let mut raw = throw_raw(&mut run.chance);
    spoil_raw(&mut run.chance, &mut raw);
    let remain = found_in(raw.words.as_slice()).len();
    let end = HEADING - 3 + remain + run.chance.below(10) as usize;
    let mut store = Words::<MOST_STORE>::filled(7, end);
    let number = try_raw_opening(run, raw.opening(), store.as_mut_slice());
    run.raw.count(number, remain / 2);
}

// A list that is in its order by both openings, each on words of its own of the same length, which may be too short.
fn both_round(run: &mut Run) {
    let list = throw_list(&mut run.chance, true);
    let length = run.chance.below(32) as usize;
    let mut store = Words::<32>::filled(7, length);
    let mut other = Words::<32>::filled(7, length);
    let Opening { n, order, list } = list.opening();
    let listed = sheet_open(n, order, list, store.as_mut_slice());
    let raw = sheet_open_raw(n, order, list, other.as_mut_slice());
    run.agree(listed.number == raw.number && store.as_slice() == other.as_slice());
}

pub fn raw_rounds(run: &mut Run) {
    for _ in 0..1500 {
        raw_round(run);
        both_round(run);
    }
}
