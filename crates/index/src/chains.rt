// The index: the entries of each bucket are linked, from the last one back to the first, in arrays of a fixed size, since the library has no heap.
ghost use Rattle.std.specs.Prelude.{◌≡◌, ◌+◌, ℕ, Option};
ghost use Rattle.index.specs.Needs.{Empty, Holds, HasRoom, Searchable, Loaded, found};

use crate::entry::Indexed;
use terms::MOST_ENTRIES;

// How many entries an index holds, and over how many buckets it spreads them.
pub const CAPACITY: usize = MOST_ENTRIES as usize;

pub const BUCKETS: usize = CAPACITY;

// How many entries it holds, for each bucket the last entry in it, and for each entry the one before it in its bucket: one more
// than the entry's number, and 0 where there is none. No Option: at two bytes more a link the index would take 16,384 bytes more, and build uses over
// 45,000 of the 65,536 bytes of stack already.
#[derive(Clone, Copy)]
pub struct Index {
    count: u16,
    lasts: [u16; BUCKETS],
    links: [u16; CAPACITY],
}

impl Index {
    // An index of no entries.
    pub fn new() -> Index
        ensures { Empty result }
    {
        Index {
            count: 0,
            lasts: [0; BUCKETS],
            links: [0; CAPACITY],
        }
    }

    // The number of the entry that is e.
    pub fn find<E: Indexed>(&self, words: &[u32], start: usize, e: E) -> Option<usize>
        requires { Searchable (E.fits words.now start) (E.entry words.now) E.bucket E.same self.now }
        ensures { result ≡ found (E.entry words.now) E.same e self.now.count }
    {
        let mut link = self.lasts[e.bucket()];
        while 0 < link {
            let i = usize::from(link - 1);
            if E::read(words, start, i) == e {
                return Some(i);
            }
            link = self.links[i];
        }
        None
    }

    // One entry more, the next in number.
    pub fn put<E: Indexed>(&mut self, e: E)
        requires { HasRoom self.old }
        ensures more { self.new.count ≡ self.old.count + 1 }
        ensures holds { (f : ℕ → ℕ) → f self.old.count ≡ E.bucket e → Holds f self.old → Holds f self.new }
    {
        let b = e.bucket();
        self.links[usize::from(self.count)] = self.lasts[b];
        self.count += 1;
        self.lasts[b] = self.count;
    }

    // Whether no two of the first so many entries are equal; if so, they go into the index, which is lent empty. Lent and not an Option of an index: it is
    // 16,384 bytes, and a sound store's entries are known to differ.
    pub fn load<E: Indexed>(&mut self, words: &[u32], start: usize, entries: usize) -> bool
        requires fits { E.fits words.now start entries }
        requires empty { Empty self.old }
        ensures differ { result ≡ E.differ words.now entries }
        ensures loaded { Loaded result (E.fits words.now start) (E.entry words.now) E.bucket E.same entries self.new }
    {
        for i in 0..entries {
            let e = E::read(words, start, i);
            if self.find(words, start, e).is_some() {
                return false;
            }
            self.put(e);
        }
        true
    }
}
