// Number 84: equal entries. An index finds them: each entry is compared with those before it in its bucket alone.
ghost use Rattle.checking.specs.Needs.{HasEntries, hash_of};
ghost use Rattle.checking.specs.TableEntry.{listed, same_listed, table_entry_laws};
ghost use Rattle.normal_form.specs.Check as rule;

use crate::entries::entry_of;
use index::{BUCKETS, Indexed};
use normal_form::Entry;

// An entry of a table, of a type of this crate's own, since the index and the entry are other crates'.
#[derive(Clone, Copy, PartialEq, Eq)]
pub struct TableEntry(Entry);

// The entries of a table begin at its first word, so no start is looked at. Each kind of entry has its own sum for the bucket: a shared one over a list of
// words and factors needs a bound of the sum for every length.
impl Indexed for TableEntry {
    ghost fits = { λ t _ k. HasEntries t k };

    ghost entry = { listed };

    ghost same = { same_listed };

    ghost differ = { rule.entries_differ };

    ghost bucket = { λ e. hash_of e.0 };

    ghost laws = { table_entry_laws };

    fn read(words: &[u32], _start: usize, i: usize) -> TableEntry {
        TableEntry(entry_of(words, i))
    }

    #[tactic(auto, unfolding(crate::specs::Needs::hash_of))]
    fn bucket(self) -> usize {
        let terms = self.0.left as u64 * 524114809 + self.0.right as u64 * 663608941;
        let sum = terms + self.0.yes as u64 * 786033567 + self.0.no as u64 * 444758427;
        (sum / 1048576) as usize % BUCKETS
    }
}
