// Which leaves some choice of counts reaches from a handle.
ghost use Rattle.std.specs.Prelude.{◌≡◌};
ghost use Rattle.facts.specs.Record as facts;
ghost use Rattle.store.specs.Layout as layout;
ghost use Rattle.store.specs.Tree as tree;
ghost use Rattle.terms.specs.Limits.{most_count};
ghost use Rattle.verdicts.specs.Leaves as spec;
ghost use Rattle.verdicts.specs.Needs.{CanDescend};

use facts::{Asked, Facts, ask, no};
use store::{LEAVES, entry_of, question_at, wide};

// Whether some choice of counts that fits the facts reaches the leaf never, and whether some reaches the leaf always.
#[derive(Clone, Copy, Debug, PartialEq, Eq)]
pub struct Leaves {
    pub never: bool,
    pub always: bool,
}

impl Leaves {
    // One of three, by the leaves that are reached, of which at least one is.
    pub fn pick<T: Copy>(self, never: T, always: T, both: T) -> T
        ensures { result ≡ spec.by_leaves never always both self }
    {
        match (self.always, self.never) {
            (true, true) => both,
            (true, false) => always,
            (false, _) => never,
        }
    }
}

// What either of two parts reaches.
fn either(a: Leaves, b: Leaves) -> Leaves
    ensures { result ≡ spec.either a b }
{
    Leaves {
        never: a.never || b.never,
        always: a.always || b.always,
    }
}

// The leaves that choices of counts fitting the facts reach from a handle. Once both are reached, nothing is left to find.
pub fn leaves_from(s: &[u32], handle: usize, f: Facts) -> Leaves
    requires { CanDescend most_count s.now handle f }
    ensures { result ≡ spec.reached (layout.question s.now) (tree.tree s.now handle) (facts.state f) }
{
    if handle < LEAVES {
        return Leaves {
            never: handle == 0,
            always: handle == 1,
        };
    }
    let e = entry_of(s, handle - LEAVES);
    let q = question_at(s, wide(e.question));
    match ask(f, q) {
        Asked::Always => leaves_from(s, wide(e.yes), f),
        Asked::Never => leaves_from(s, wide(e.no), f),
        Asked::Open(g) => {
            let a = leaves_from(s, wide(e.yes), g);
            if a.never && a.always {
                return a;
            }
            either(a, leaves_from(s, wide(e.no), no(f, q)))
        }
    }
}
