// A table and a root whose shape is known, number 81: the words are a whole number of entries, not too many, and the root is one of their handles.
ghost use Rattle.std.specs.Prelude.{◌≡◌, ◌+◌, ◌<◌, ◌≤◌, IfSome, is_some};
ghost use Rattle.normal_form.specs.Check.{shape_kept};
ghost use Rattle.normal_form.specs.Limits.{most_table_entries, table_limits};
ghost use Rattle.normal_form.specs.Table.{entry_count, entry};
ghost use Rattle.store.specs.Layout.{leaves};

use crate::entries::{CAPACITY, ENTRY_LENGTH, entry_of};
use normal_form::Entry;
use store::{LEAVES, wide};

// The words of the entries, and the root's handle.
#[derive(Clone, Copy)]
pub struct Table<'a> {
    pub words: &'a [u32],
    pub root: u32,
    pub ghost few: { entry_count words.now ≤ most_table_entries },
    pub ghost root_low: { root < entry_count words.now + leaves },
}

impl<'a> Table<'a> {
    // Words and a root, if they have this shape.
    #[tactic(auto, unfolding(normal_form::specs::Check::shape_kept))]
    pub fn of(words: &'a [u32], root: u32) -> Option<Table<'a>>
        ensures tested { is_some result ≡ shape_kept table_limits words.now root }
        ensures same { IfSome result (λ t. (t.words.now ≡ words.now) × (t.root ≡ root)) }
    {
        let count = words.len() / ENTRY_LENGTH;
        if words.len() % ENTRY_LENGTH == 0 && count <= CAPACITY && wide(root) < count + LEAVES {
            Some(Table { words, root })
        } else {
            None
        }
    }

    // How many entries there are.
    pub fn count(self) -> usize
        ensures { result ≡ entry_count self.entry.words.now }
    {
        self.words.len() / ENTRY_LENGTH
    }

    // The i-th entry. The bound is of a place and a table together, so it is an invariant of neither.
    pub fn entry(self, i: usize) -> Entry
        requires { i < entry_count self.words.now }
        ensures { result ≡ entry self.entry.words.now i }
    {
        entry_of(self.words, i)
    }
}
