// The entries of a store.
ghost use Rattle.std.specs.Prelude.{◌≡◌};
ghost use Rattle.store.specs.Entries as spec;
ghost use Rattle.store.specs.Layout as layout;
ghost use Rattle.store.specs.Needs.{HasEntry, EntryFrom, CanAppend};

use crate::words::{entries_start, set_used, used, wide};

// A question's number, and the handles of its yes part and its no part.
#[derive(Clone, Copy, Debug, PartialEq, Eq)]
pub struct Entry {
    pub question: u32,
    pub yes: u32,
    pub no: u32,
}

// The i-th entry, where the entries begin at the word `start`: a loop over entries works the start out once.
pub fn entry_from(s: &[u32], start: usize, i: usize) -> Entry
    requires { EntryFrom s.now start i }
    ensures { result ≡ layout.entry s.now i }
{
    let at = start + 3 * i;
    Entry {
        question: s[at],
        yes: s[at + 1],
        no: s[at + 2],
    }
}

// The i-th entry.
pub fn entry_of(s: &[u32], i: usize) -> Entry
    requires { HasEntry s.now i }
    ensures { result ≡ layout.entry s.now i }
{
    entry_from(s, entries_start(s), i)
}

// Writes an entry after the last.
#[tactic(auto, unfolding(crate::specs::Entries::with_entry))]
pub fn append(store: &mut [u32], e: Entry)
    requires { CanAppend store.old }
    ensures { store.new ≡ spec.with_entry store.old e }
{
    let entries = used(store);
    let at = entries_start(store) + 3 * wide(entries);
    store[at] = e.question;
    store[at + 1] = e.yes;
    store[at + 2] = e.no;
    set_used(store, entries + 1);
}
