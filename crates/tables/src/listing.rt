// Which equations a rule table may name: those of terms within the limits that are questions of a store's list, or simplify to never or always.
ghost use Rattle.std.specs.Prelude.{◌≡◌, ◌≤◌, length};
ghost use Rattle.store.specs.Layout.{entries_start, question_count};
ghost use Rattle.tables.specs.Faults.{equation_fault};
ghost use Rattle.tables.specs.Listed as spec;
ghost use Rattle.tables.specs.TableFault.{checked};

use crate::answer::TableFault;
use store::{question_at, question_count, wide};
use terms::{Equation, Guard, TermLimits, allows, simplify_equation};

// The limits of terms, and the words of a store whose list lies within them.
#[derive(Clone, Copy)]
pub struct Listing<'a> {
    pub limits: TermLimits,
    pub store: &'a [u32],
    pub ghost within: { entries_start store.now ≤ length store.now },
}

impl Listing<'_> {
    // Whether an equation is one of the list's questions. From the last one down, as the definition goes: `rev` has no law for ranges yet.
    fn has_question(self, q: Equation) -> bool
        ensures { result ≡ spec.on_list self.entry.store.now q (question_count self.entry.store.now) }
    {
        let n = wide(question_count(self.store));
        (0..n).any(|k| question_at(self.store, n - k) == q)
    }

    // Whether a simplified equation is never, always, or on the list.
    fn has_guard(self, g: Guard) -> bool
        ensures { result ≡ spec.guard_listed self.entry.store.now g }
    {
        match g {
            Guard::Never | Guard::Always => true,
            Guard::Question(q) => self.has_question(q),
        }
    }

    // What is wrong with an equation: a term beyond the limits, or no question of the list.
    #[tactic(auto, unfolding(crate::specs::Faults::equation_fault))]
    pub fn equation_fault(self, e: Equation) -> Result<(), TableFault>
        ensures { result ≡ checked (equation_fault self.entry.limits self.entry.store.now e) }
    {
        if !(allows(self.limits, e.left) && allows(self.limits, e.right)) {
            return Err(TableFault::OutOfLimits);
        }
        if !self.has_guard(simplify_equation(e)) {
            return Err(TableFault::NotListed);
        }
        Ok(())
    }
}
