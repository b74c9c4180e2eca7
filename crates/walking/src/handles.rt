// What the facts say of a handle.
ghost use Rattle.std.specs.Prelude.{◌≡◌};
ghost use Rattle.facts.specs.Record as facts;
ghost use Rattle.walking.specs.Needs.{CanFollow};
ghost use Rattle.walking.specs.Value as spec;

use crate::truths::leaf_value;
use facts::{Decision, Facts, decision_of};
use store::{LEAVES, entry_of, question_at, wide};

// The value of a handle: its entries are followed while their questions are decided. The way down follows handles, so there is no index to go over.
// A decision can be open and a truth can't, so a shared way down with reading would take a closure and its law in place of either loop's invariant.
pub fn handle_value(s: &[u32], handle: u32, f: &Facts) -> Decision
    requires { CanFollow s.now handle f.now }
    ensures { result ≡ spec.handle_value s.now handle (facts.state f.now) }
{
    let mut h = wide(handle);
    while LEAVES <= h {
        let e = entry_of(s, h - LEAVES);
        h = match decision_of(*f, question_at(s, wide(e.question))) {
            Decision::Always => wide(e.yes),
            Decision::Never => wide(e.no),
            Decision::Open => return Decision::Open,
        };
    }
    leaf_value(h == 1)
}
