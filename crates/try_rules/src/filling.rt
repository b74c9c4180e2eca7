// Hand-made sound stores over the questions n = 0, n = S(0) and so on, n being the last field, with many entries.
ghost use Rattle.std.specs.Prelude.{◌<◌};

use evaluator::{Entry, HEADING, Opening, Order, Store, USED_PLACE, Words, put, put_entry};

// What a store is for: its fields, its questions, at least four, and its order.
#[derive(Clone, Copy)]
pub struct Form {
    pub n: u32,
    pub questions: u32,
    pub order: Order,
}

// Of one field, with as many questions as the institute takes.
pub fn widest(order: Order) -> Form {
    Form {
        n: 1,
        questions: 20,
        order,
    }
}

// The words of a store with 20 questions and room for 4,096 entries, and twenty more, so that the limit and not the length binds.
pub const FULL_WORDS: usize = HEADING + 40 + 3 * 4096 + 20;

// The questions n = 0, n = S(0) and so on.
fn steps_list(form: Form) -> Words<40> {
    let mut list = Words::new();
    for steps in 0..form.questions {
        list.extend_from_slice(&[form.n, steps.saturating_mul(32)]);
    }
    list
}

// The heading and the list, which is in both orders, with so many entries used.
fn write_heading(words: &mut [u32], form: Form, used: u32) {
    let list = steps_list(form);
    let opening = Opening {
        n: form.n,
        order: u32::from(form.order),
        list: list.as_slice(),
    };
    opening.write(words);
    put(words, USED_PLACE, used);
}

// The j-th pair of two different handles, of which each has so many others.
fn pair(question: u32, j: u32, others: u32) -> Entry
    requires { 0 < others }
{
    let yes = j / others;
    let rest = j % others;
    let no = if rest < yes { rest } else { rest + 1 };
    Entry { question, yes, no }
}

// The entries in turn: the pairs of the two leaves at the last question, those of the four handles then there at the question before it, then of
// sixteen, then of 256; then the two of the leaves at question 1, of which the first is the 4,096th entry.
fn entry_at(last: u32, i: u32) -> Entry {
    match i {
        0..2 => pair(last, i, 1),
        2..14 => pair(last.saturating_sub(1), i - 2, 3),
        14..254 => pair(last.saturating_sub(2), i - 14, 15),
        254..4095 => pair(last.saturating_sub(3), i - 254, 255),
        _ => pair(1, 4096 - i.min(4096), 1),
    }
}

fn write_entries(words: &mut [u32], entries: u32) {
    let last = Store(words).questions();
    for i in 0..entries {
        put_entry(words, i, entry_at(last, i));
    }
}

// A store with so many of these entries.
pub fn filled(form: Form, entries: u32) -> [u32; FULL_WORDS] {
    let mut words = [0; FULL_WORDS];
    write_heading(&mut words, form, entries);
    write_entries(&mut words, entries);
    words
}

// An entry over two handles, of which the second may be a leaf: its question number is one less than the smaller of theirs.
fn write_over(words: &mut [u32], i: u32, yes: u32, no: u32) {
    let store = Store(words);
    let next = store.asked_by(yes).min(store.asked_by(no));
    let question = next.saturating_sub(1);
    put_entry(words, i, Entry { question, yes, no });
}

// Each next entry is over the next two handles that have none above them.
fn write_tree(words: &mut [u32]) {
    for t in 0..56 {
        write_over(words, 71 + t, 16 + 2 * t, 17 + 2 * t);
    }
}

// The words of a store with 20 questions and room for 129 entries.
const TREE_WORDS: usize = HEADING + 40 + 3 * 129;

// A store with a tree over the 57 entries of question 18 that follow the first fourteen. The tree's root is handle 128 and reaches 127 entries;
// handle 129 is over the root and never.
pub fn tree(order: Order) -> [u32; TREE_WORDS] {
    let mut words = [0; TREE_WORDS];
    write_heading(&mut words, widest(order), 128);
    write_entries(&mut words, 71);
    write_tree(&mut words);
    write_over(&mut words, 127, 128, 0);
    words
}
