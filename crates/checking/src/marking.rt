// Number 85: an entry that is not reachable from the root. Handles are lower than their entry's own, so one pass down marks all that are.
// The pass stands again in writing for a store's entries: the definitions of the two are apart, and a trait would state both as laws.
ghost use Rattle.std.specs.Prelude.{◌≡◌, false, ◌<◌, replicate};
ghost use Rattle.checking.specs.Needs.{most_handles};
ghost use Rattle.normal_form.specs.Check as rule;
ghost use Rattle.normal_form.specs.Limits.{table_limits};
ghost use Rattle.normal_form.specs.Reachable as reach;
ghost use Rattle.normal_form.specs.Table.{entry_count};

use crate::diagram::Diagram;
use crate::entries::{Flags, HANDLES};
use store::{LEAVES, wide};

impl Diagram<'_> {
    // The i-th entry, if it is marked, marks its two handles.
    #[tactic(auto, unfolding(normal_form::specs::Reachable::mark_parts))]
    fn mark_parts(self, i: usize, marks: &mut Flags)
        requires { i < entry_count self.table.words.now }
        ensures { marks.new ≡ reach.mark_parts self.entry.table.words.now i marks.old }
    {
        if marks[i + LEAVES] {
            let e = self.entry(i);
            marks[wide(e.yes)] = true;
            marks[wide(e.no)] = true;
        }
    }

    // Marks the handles reachable from the root.
    #[tactic(auto, unfolding(normal_form::specs::Reachable::marks_down, normal_form::specs::Reachable::reachable))]
    fn mark_down(self, marks: &mut Flags)
        requires { marks.old ≡ replicate most_handles false }
        ensures { marks.new ≡ reach.reachable table_limits self.entry.table.words.now self.entry.table.root }
    {
        marks[wide(self.table.root)] = true;
        for i in (0..self.table.count()).rev() {
            self.mark_parts(i, marks);
        }
    }

    // Whether each entry is reachable from the root.
    pub fn all_reachable(self) -> bool
        ensures { result ≡ rule.all_reachable table_limits self.entry.table.words.now self.entry.table.root }
    {
        let mut marks = [false; HANDLES];
        self.mark_down(&mut marks);
        (0..self.table.count()).all(|i| marks[i + LEAVES])
    }
}
