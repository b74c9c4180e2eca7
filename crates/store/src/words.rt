// The words of a store, one by one. Outside this crate soundness alone indexes them: the list as a slice, and the words after the entries.
ghost use Rattle.std.specs.Prelude.{◌≡◌, ◌∷◌, ◌+◌, ◌≤◌, length, get_or, drop};
ghost use Rattle.store.specs.Layout as layout;
ghost use Rattle.store.specs.Needs.{HasQuestion};

use terms::{Equation, Limits};

// The words before the list: n, the number of questions, the entries used, and the order.
pub const HEADING: usize = 4;

// The handles of the leaves never and always, 0 and 1, come before those of the entries. A handle stays a number, as words hold it and the documents
// count it: an enum of leaf or entry would be made and taken apart at each step.
pub const LEAVES: usize = 2;

// A word as a number of words, of entries or of handles. A function, where `as` says no more: its name tells at sixty places that nothing is cut off.
pub fn wide(word: u32) -> usize
    ensures { result ≡ word }
{
    word as usize
}

// The heading's length, or the list's, is asked for by each of these functions, and by no type around the words: a store is lent to be changed too, and a
// view of its words with the fact in it would be made anew after each write, at every caller, for one line of each contract here.

// The number of fields.
pub fn field_count(s: &[u32]) -> u32
    requires { layout.heading_length ≤ length s.now }
    ensures { result ≡ layout.field_count s.now }
{
    s[0]
}

// The number of questions.
pub fn question_count(s: &[u32]) -> u32
    requires { layout.heading_length ≤ length s.now }
    ensures { result ≡ layout.question_count s.now }
{
    s[1]
}

// The number of entries used.
pub fn used(s: &[u32]) -> u32
    requires { layout.heading_length ≤ length s.now }
    ensures { result ≡ layout.used s.now }
{
    s[2]
}

// The number that names the order of the list.
pub fn store_order(s: &[u32]) -> u32
    requires { layout.heading_length ≤ length s.now }
    ensures { result ≡ layout.store_order s.now }
{
    s[3]
}

// Writes the number of entries used.
pub fn set_used(store: &mut [u32], entries: u32)
    requires { layout.heading_length ≤ length store.old }
    ensures { store.new ≡ layout.with_used store.old entries }
{
    store[2] = entries;
}

// Writes the number of fields, the number of questions, that no entries are used, and the order.
pub fn write_heading(n: u32, questions: u32, order: u32, store: &mut [u32])
    requires { layout.heading_length ≤ length store.old }
    ensures { store.new ≡ n ∷ questions ∷ 0 ∷ order ∷ drop layout.heading_length store.old }
{
    store[0] = n;
    store[1] = questions;
    store[2] = 0;
    store[3] = order;
}

// Whether a handle is one of the store's.
pub fn has_handle(s: &[u32], handle: u32) -> bool
    requires { layout.heading_length ≤ length s.now }
    ensures { result ≡ layout.is_handle s.now handle }
{
    wide(handle) < wide(used(s)) + LEAVES
}

// The left term's word of the question with the number k, counted from 1.
pub fn left_word(s: &[u32], k: usize) -> u32
    requires { HasQuestion s.now k }
    ensures { result ≡ get_or s.now (layout.question_start k) 0 }
{
    s[HEADING + 2 * (k - 1)]
}

// The right term's word of the question with the number k.
pub fn right_word(s: &[u32], k: usize) -> u32
    requires { HasQuestion s.now k }
    ensures { result ≡ get_or s.now (layout.question_start k + 1) 0 }
{
    s[HEADING + 2 * (k - 1) + 1]
}

// The question with the number k.
pub fn question_at(s: &[u32], k: usize) -> Equation
    requires { HasQuestion s.now k }
    ensures { result ≡ layout.question s.now k }
{
    Equation::of_words(left_word(s, k), right_word(s, k))
}

// Where the entries begin.
pub fn entries_start(s: &[u32]) -> usize
    requires { layout.heading_length ≤ length s.now }
    ensures { result ≡ layout.entries_start s.now }
{
    HEADING + 2 * wide(question_count(s))
}

// How many entries the store has room for.
pub fn room(limits: Limits, s: &[u32]) -> usize
    requires { layout.entries_start s.now ≤ length s.now }
    ensures { result ≡ layout.room limits s.now }
{
    let fit = (s.len() - entries_start(s)) / 3;
    fit.min(wide(limits.entries))
}

// Writes zeros from a word on.
pub fn clear_from(store: &mut [u32], start: usize)
    requires { start ≤ length store.old }
    ensures { store.new ≡ layout.cleared_from store.old start }
{
    store[start..].fill(0);
}
