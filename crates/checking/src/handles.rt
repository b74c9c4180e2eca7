// Number 83: a handle not lower than its entry's own. Once this has passed, every handle of an entry can be followed.
ghost use Rattle.std.specs.Prelude.{◌≡◌, ◌<◌};
ghost use Rattle.checking.specs.Needs.{parts_lower};
ghost use Rattle.normal_form.specs.Check as rule;
ghost use Rattle.normal_form.specs.Table.{entry_count, entry};

use crate::table::Table;
use store::{LEAVES, wide};

impl Table<'_> {
    // Whether the handles of the i-th entry are lower than its own.
    #[tactic(auto, unfolding(normal_form::specs::Check::handles_lower))]
    fn handles_lower(self, i: usize) -> bool
        requires { i < entry_count self.words.now }
        ensures { result ≡ rule.handles_lower (entry self.entry.words.now i) i }
    {
        let e = self.entry(i);
        let own = i + LEAVES;
        wide(e.yes) < own && wide(e.no) < own
    }

    // Whether this is so of each entry.
    pub fn all_handles_lower(self) -> bool
        ensures { result ≡ parts_lower self.entry.words.now }
    {
        (0..self.count()).all(|i| self.handles_lower(i))
    }
}
