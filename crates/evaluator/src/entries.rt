// The entries of a store, counted from 0: their words, and which of them has given words.
ghost use Rattle.std.specs.Prelude.{◌<◌};

use crate::layout::{HEADING, Store};
use crate::limits::{Limits, MOST_QUESTIONS};
use crate::words::{at, copy};

// An entry's question number, and its two handles.
#[derive(Clone, Copy, Debug, PartialEq, Eq)]
pub struct Entry {
    pub question: u32,
    pub yes: u32,
    pub no: u32,
}

const AFTER_ALL: u32 = MOST_QUESTIONS + 1;

impl Store<'_> {
    // Where the three words of an entry begin.
    pub fn entry_place(self, i: u32) -> usize
        ensures { result < 100000000000 }
    {
        HEADING + 2 * self.questions() as usize + 3 * i as usize
    }

    pub(crate) fn entry(self, i: u32) -> Entry {
        let place = self.entry_place(i);
        Entry {
            question: at(self.0, place),
            yes: at(self.0, place + 1),
            no: at(self.0, place + 2),
        }
    }

    // The question number of a handle; a leaf comes after all questions.
    pub fn asked_by(self, handle: u32) -> u32 {
        match handle.checked_sub(2) {
            Some(i) => self.entry(i).question,
            None => AFTER_ALL,
        }
    }

    // The first entry with these words.
    pub(crate) fn find(self, entry: Entry) -> Option<u32> {
        (0..self.used()).find(|i| self.entry(*i) == entry)
    }

    // Whether a store has room for so many entries, within limits and by its length.
    pub(crate) fn has_room(self, limits: Limits, entries: u32) -> bool {
        entries <= limits.entries && self.fits(entries)
    }

    // Whether a store is long enough for so many entries.
    pub fn fits(self, entries: u32) -> bool {
        self.entry_place(entries) <= self.0.len()
    }
}

// Writes the three words of an entry, where they fit.
pub fn put_entry(words: &mut [u32], i: u32, entry: Entry) {
    let place = Store(words).entry_place(i);
    if let Some(room) = words.get_mut(place..place + 3) {
        copy(&[entry.question, entry.yes, entry.no], room);
    }
}
