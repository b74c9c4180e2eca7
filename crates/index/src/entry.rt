// What an index asks of the entries that it holds. The words and the start are lent at each call and are no struct: a store is written between the calls,
// so that a view of both would be made anew at each of them.
ghost use Rattle.std.specs.Prelude.{◌≡◌, ◌+◌, ℕ, Bool, List};
ghost use Rattle.index.specs.Entries.{Bucket, EntryLaws};

use std::cmp::Eq;

// An entry that is read from words, and is equal to another exactly if all of it is.
pub trait Indexed: Copy + Eq {
    // The first k entries, from the word `start` on, lie within the words, and an index has room for them.
    ghost fits: { List ℕ → ℕ → ℕ → Type 0 };

    // The i-th entry.
    ghost entry: { List ℕ → ℕ → Self };

    // Whether two entries are equal.
    ghost same: { Self → Self → Bool };

    // No two of the first k entries are equal.
    ghost differ: { List ℕ → ℕ → Bool };

    // Any function would do: one that spreads ordinary entries keeps the chains short.
    ghost bucket: { Self → ℕ };

    fn read(words: &[u32], start: usize, i: usize) -> Self
        requires { fits words.now start (i + 1) }
        ensures { result ≡ entry words.now i };

    fn bucket(self) -> usize
        ensures { Bucket (bucket self) result };

    ghost laws: { EntryLaws fits entry differ same Self.eq };
}
