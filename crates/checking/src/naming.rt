// Number 86, for rule 8': an entry whose left field is named in its yes part. Handles are lower than their entry's own, so one pass up finds the
// fields named at or below each handle, all of them at once; a second pass looks the left fields up.
ghost use Rattle.std.specs.Prelude.{◌≡◌, ◌<◌, replicate};
ghost use Rattle.checking.specs.FieldSets.{fields_at, field_sets};
ghost use Rattle.checking.specs.Needs.{most_handles};
ghost use Rattle.normal_form.specs.Check as rule;
ghost use Rattle.normal_form.specs.Limits.{table_limits};
ghost use Rattle.normal_form.specs.Table.{entry_count};
ghost use Rattle.store.specs.Sound.{all_below};

use crate::diagram::Diagram;
use crate::entries::{HANDLES, equation_of};
use crate::sets::{both_fields, has_field};
use store::{LEAVES, wide};

// For each handle the fields named at or below it. The library has no heap: there is a place for every handle.
type FieldSets = [u32; HANDLES];

impl Diagram<'_> {
    // The fields named at or below the i-th entry, by the sets of lower handles.
    #[tactic(auto, unfolding(crate::specs::FieldSets::fields_at))]
    fn fields_at(self, i: usize, sets: &FieldSets) -> u32
        requires { i < entry_count self.table.words.now }
        ensures { result ≡ fields_at self.entry.table.words.now i sets.now }
    {
        let e = self.entry(i);
        both_fields(equation_of(e)) | (sets[wide(e.yes)] | sets[wide(e.no)])
    }

    // Finds the fields named at or below each handle.
    #[tactic(auto, unfolding(crate::specs::FieldSets::field_sets))]
    fn name_up(self, sets: &mut FieldSets)
        requires { sets.old ≡ replicate most_handles 0 }
        ensures { sets.new ≡ field_sets self.entry.table.words.now (entry_count self.entry.table.words.now) }
    {
        for i in 0..self.table.count() {
            sets[i + LEAVES] = self.fields_at(i, sets);
        }
    }

    // Whether the left field of the i-th entry is not named in its yes part.
    fn left_apart(self, i: usize, sets: &FieldSets) -> bool
        requires in_table { i < entry_count self.table.words.now }
        requires named { sets.now ≡ field_sets self.table.words.now (entry_count self.table.words.now) }
        ensures { result ≡ rule.left_apart table_limits self.entry.table.words.now i }
    {
        let e = self.entry(i);
        !has_field(sets[wide(e.yes)], equation_of(e).left.field.0)
    }

    // Whether no entry's left field is named in its yes part.
    pub fn lefts_apart(self) -> bool
        ensures { result ≡ all_below (entry_count self.entry.table.words.now) (rule.left_apart table_limits self.entry.table.words.now) }
    {
        let mut sets = [0u32; HANDLES];
        self.name_up(&mut sets);
        (0..self.table.count()).all(|i| self.left_apart(i, &sets))
    }
}
