// The rules of a sound store's entries.
ghost use Rattle.std.specs.Prelude.{◌≡◌, ◌+◌, ◌*◌, ◌<◌, drop};
ghost use Rattle.index.specs.Needs.{EntriesFit};
ghost use Rattle.soundness.specs.Needs.{numbers_sound, body_sound};
ghost use Rattle.store.specs.Layout.{leaves};
ghost use Rattle.store.specs.Sound as spec;
ghost use Rattle.terms.specs.Limits.{most_entries};

use crate::zeros::all_zero;
use index::entries_differ;
use store::{Entry, LEAVES, entry_from, question_count, wide};

// The first entries of a store, which lie within its words: where they begin, and how many they are.
#[derive(Clone, Copy)]
pub struct Entries<'a> {
    pub store: &'a [u32],
    pub start: usize,
    pub count: usize,
    pub ghost fit: { EntriesFit store.now start count },
}

// Whether the question number of the i-th entry is one of so many questions, and its handles are smaller than its own and differ.
#[tactic(auto, unfolding(crate::specs::Needs::numbers_sound))]
fn numbers_sound(questions: u32, i: usize, e: Entry) -> bool
    requires { i < most_entries }
    ensures { result ≡ numbers_sound questions i e }
{
    let own = i + LEAVES;
    let question_listed = 1 <= e.question && e.question <= questions;
    question_listed && wide(e.yes) < own && wide(e.no) < own && e.yes != e.no
}

impl<'a> Entries<'a> {
    // Whether a handle that an entry names is a leaf, or names an entry with a larger question number.
    fn asks_before(self, e: Entry, handle: usize) -> bool
        requires { handle < self.count + leaves }
        ensures { result ≡ spec.asks_before self.entry.store.now e handle }
    {
        handle < LEAVES || e.question < entry_from(self.store, self.start, handle - LEAVES).question
    }

    // Whether the i-th entry keeps the rules of an entry.
    fn is_sound(self, i: usize) -> bool
        requires { i < self.count }
        ensures { result ≡ spec.entry_sound self.entry.store.now i }
    {
        let e = entry_from(self.store, self.start, i);
        if !numbers_sound(question_count(self.store), i, e) {
            return false;
        }
        self.asks_before(e, wide(e.yes)) && self.asks_before(e, wide(e.no))
    }

    // Whether each entry keeps the rules of an entry.
    fn are_sound(self) -> bool
        ensures { result ≡ spec.all_below self.entry.count (spec.entry_sound self.entry.store.now) }
    {
        (0..self.count).all(|i| self.is_sound(i))
    }

    // The words after the entries.
    fn unused(self) -> &'a [u32]
        ensures { result.now ≡ drop (self.entry.start + 3 * self.entry.count) self.entry.store.now }
    {
        self.store.get(self.start + 3 * self.count..).unwrap_or(&[])
    }

    // Whether the words after the entries are zero.
    fn zero_after(self) -> bool
        ensures { result ≡ spec.all_zero (drop (self.entry.start + 3 * self.entry.count) self.entry.store.now) }
    {
        all_zero(self.unused())
    }

    // Whether the entries keep their rules, no two of them are equal, and the words after them are zero.
    #[tactic(auto, unfolding(crate::specs::Needs::body_sound))]
    pub fn are_all_sound(self) -> bool
        ensures { result ≡ body_sound self.entry.store.now self.entry.count }
    {
        self.are_sound()
            && entries_differ::<Entry>(self.store, self.start, self.count)
            && self.zero_after()
    }
}
