// Number 82: a term beyond the limits, or an equation that is not simplified.
ghost use Rattle.std.specs.Prelude.{◌≡◌, ◌<◌};
ghost use Rattle.normal_form.specs.Check as rule;
ghost use Rattle.normal_form.specs.Limits.{table_limits};
ghost use Rattle.normal_form.specs.Table.{entry_count, entry};
ghost use Rattle.store.specs.Sound.{all_below};

use crate::entries::equation_of;
use crate::table::Table;
use normal_form::limits_of_table;
use terms::{allows, is_simplified};

impl Table<'_> {
    // Whether the terms of the i-th entry are within the limits, and its equation is simplified.
    #[tactic(auto, unfolding(normal_form::specs::Check::terms_kept))]
    fn terms_kept(self, i: usize) -> bool
        requires { i < entry_count self.words.now }
        ensures { result ≡ rule.terms_kept table_limits (entry self.entry.words.now i) }
    {
        let terms = limits_of_table().terms;
        let g = equation_of(self.entry(i));
        allows(terms, g.left) && allows(terms, g.right) && is_simplified(g)
    }

    // Whether this is so of each entry.
    pub fn all_terms_kept(self) -> bool
        ensures { result ≡ all_below (entry_count self.entry.words.now) (λ i. rule.terms_kept table_limits (entry self.entry.words.now i)) }
    {
        (0..self.count()).all(|i| self.terms_kept(i))
    }
}
