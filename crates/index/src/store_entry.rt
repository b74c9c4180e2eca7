// The entries of a store as an index holds them. Each kind of entry has its own sum: a shared one over a list of words and factors needs a bound of the
// sum for every length.
ghost use Rattle.index.specs.Needs.{EntriesFit, hash_of};
ghost use Rattle.index.specs.StoreEntry.{store_entry_laws};
ghost use Rattle.store.specs.Layout as layout;
ghost use Rattle.store.specs.Sound.{same_entry, differ_below};

use crate::chains::BUCKETS;
use crate::entry::Indexed;
use store::{Entry, entry_from};

impl Indexed for Entry {
    ghost fits = { EntriesFit };

    ghost entry = { layout.entry };

    ghost same = { same_entry };

    ghost differ = { differ_below };

    ghost bucket = { hash_of };

    ghost laws = { store_entry_laws };

    fn read(words: &[u32], start: usize, i: usize) -> Entry {
        entry_from(words, start, i)
    }

    #[tactic(auto, unfolding(crate::specs::Needs::hash_of))]
    fn bucket(self) -> usize {
        let sum = self.question as u64 * 524114809
            + self.yes as u64 * 1518500249
            + self.no as u64 * 1859775393;
        (sum / 1048576) as usize % BUCKETS
    }
}
