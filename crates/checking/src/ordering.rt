// Number 86, rules 3 to 7: an entry whose two parts are the same, or that has a part which doesn't ask after it.
ghost use Rattle.std.specs.Prelude.{◌≡◌, ◌+◌, ◌<◌};
ghost use Rattle.normal_form.specs.Check as rule;
ghost use Rattle.normal_form.specs.Table.{entry_count};
ghost use Rattle.store.specs.Layout.{leaves};
ghost use Rattle.store.specs.Sound.{all_below};

use crate::diagram::Diagram;
use crate::entries::equation_of;
use store::{LEAVES, wide};
use terms::{Equation, ListOrder, precedes};

impl Diagram<'_> {
    // Whether a handle is a leaf, or its entry asks an equation after g.
    fn asks_after(self, g: Equation, handle: usize) -> bool
        requires { handle < entry_count self.table.words.now + leaves }
        ensures { result ≡ rule.asks_after self.entry.table.words.now g handle }
    {
        handle < LEAVES
            || precedes(
                ListOrder::FieldsFirst,
                g,
                equation_of(self.entry(handle - LEAVES)),
            )
    }

    // Whether rules 3 to 7 do not apply at the i-th entry.
    #[tactic(auto, unfolding(normal_form::specs::Check::parts_ordered))]
    fn parts_ordered(self, i: usize) -> bool
        requires { i < entry_count self.table.words.now }
        ensures { result ≡ rule.parts_ordered self.entry.table.words.now i }
    {
        let e = self.entry(i);
        let g = equation_of(e);
        e.yes != e.no && self.asks_after(g, wide(e.yes)) && self.asks_after(g, wide(e.no))
    }

    // Whether they apply at no entry.
    pub fn all_ordered(self) -> bool
        ensures { result ≡ all_below (entry_count self.entry.table.words.now) (rule.parts_ordered self.entry.table.words.now) }
    {
        (0..self.table.count()).all(|i| self.parts_ordered(i))
    }
}
