// The check, in the order of its numbers. No entry is read by a handle before every handle is known to be lower than its entry's own.
ghost use Rattle.std.specs.Prelude.{◌≡◌};
ghost use Rattle.normal_form.specs.Check as rule;
ghost use Rattle.normal_form.specs.Limits.{table_limits};

use crate::diagram::Diagram;
use crate::differing::TableEntry;
use crate::table::Table;
use index::entries_differ;
use normal_form::CheckFault;
use store::Verdict;

// The verdict of the root of an accepted table.
fn root_verdict(root: u32) -> Verdict
    ensures { result ≡ rule.root_verdict root }
{
    match root {
        0 => Verdict::Never,
        1 => Verdict::Always,
        _ => Verdict::Sometimes,
    }
}

impl Diagram<'_> {
    // Number 86: whether none of Definition 28's rules applies.
    #[tactic(auto, unfolding(normal_form::specs::Check::no_rule_applies))]
    fn no_rule_applies(self) -> bool
        ensures { result ≡ rule.no_rule_applies table_limits self.entry.table.words.now }
    {
        self.all_ordered() && self.lefts_apart()
    }

    // The conditions 84 to 86.
    #[tactic(auto, unfolding(normal_form::specs::Check::check_diagram))]
    fn check(self) -> Result<Verdict, CheckFault>
        ensures { result ≡ rule.check_diagram table_limits self.entry.table.words.now self.entry.table.root }
    {
        let table = self.table;
        if !entries_differ::<TableEntry>(table.words, 0, table.count()) {
            return Err(CheckFault::EqualEntries);
        }
        if !self.all_reachable() {
            return Err(CheckFault::NotReachable);
        }
        if !self.no_rule_applies() {
            return Err(CheckFault::RuleApplies);
        }
        Ok(root_verdict(table.root))
    }
}

impl Table<'_> {
    // The conditions 82 to 86.
    #[tactic(auto, unfolding(normal_form::specs::Check::check_entries))]
    fn check(self) -> Result<Verdict, CheckFault>
        ensures { result ≡ rule.check_entries table_limits self.entry.words.now self.entry.root }
    {
        if !self.all_terms_kept() {
            return Err(CheckFault::BadTerm);
        }
        let diagram = Diagram::of(self).ok_or(CheckFault::HandleNotLower)?;
        diagram.check()
    }
}

// Whether a table of entries is in Definition 28's normal form from a root on: the root's verdict, or the first condition that fails.
#[tactic(auto, unfolding(normal_form::specs::Check::check))]
pub fn check_normal_form(table: &[u32], root: u32) -> Result<Verdict, CheckFault>
    ensures { result ≡ rule.check table_limits table.now root }
{
    let shaped = Table::of(table, root).ok_or(CheckFault::BadShape)?;
    shaped.check()
}
