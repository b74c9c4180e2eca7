// A table whose handles can be followed: number 83 has passed, so that each handle is lower than its entry's own.
ghost use Rattle.std.specs.Prelude.{◌≡◌, ◌+◌, ◌<◌, true, IfSome, is_some};
ghost use Rattle.checking.specs.Needs.{parts_lower};
ghost use Rattle.normal_form.specs.Table.{entry_count, entry};
ghost use Rattle.store.specs.Layout.{leaves};

use crate::table::Table;
use normal_form::Entry;

#[derive(Clone, Copy)]
pub struct Diagram<'a> {
    pub table: Table<'a>,
    pub ghost lower: { parts_lower table.words.now ≡ true },
}

impl<'a> Diagram<'a> {
    // A table, if each of its handles is lower than its entry's own.
    pub fn of(table: Table<'a>) -> Option<Diagram<'a>>
        ensures tested { is_some result ≡ parts_lower table.entry.words.now }
        ensures same { IfSome result (λ d. d.table ≡ table.entry) }
    {
        if table.all_handles_lower() {
            Some(Diagram { table })
        } else {
            None
        }
    }

    // The i-th entry, whose handles are lower than its own.
    pub fn entry(self, i: usize) -> Entry
        requires { i < entry_count self.table.words.now }
        ensures is { result ≡ entry self.entry.table.words.now i }
        ensures yes_low { result.yes < i + leaves }
        ensures no_low { result.no < i + leaves }
    {
        self.table.entry(i)
    }
}
