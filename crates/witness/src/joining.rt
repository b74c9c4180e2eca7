// Joining two rules both ways round.
ghost use Rattle.std.specs.Prelude.{◌≡◌};
ghost use Rattle.store.specs.Outcome.{outcome};
ghost use Rattle.terms.specs.Limits as limit;
ghost use Rattle.witness.specs.Joined.{SameHandles, joined_both_ways};

use building::{build, join};
use store::open;

// Opens a store, builds two rules, and joins them both ways round: the two handles, where every call is accepted.
#[tactic(auto, unfolding(crate::specs::Joined::joined_both_ways, crate::specs::Joined::after_opening, crate::specs::Joined::after_building))]
pub fn join_both_ways(
    n: u32,
    order: u32,
    list: &[u32],
    first: &[u32],
    second: &[u32],
    store: &mut [u32],
) -> Option<(u32, u32)>
    ensures store_after { outcome result store.new
        ≡ joined_both_ways limit.store_limits n order list.now first.now second.now store.old }
    ensures same_handles { SameHandles result }
{
    open(n, order, list, store).ok()?;
    let a = build(store, first).ok()?;
    let b = build(store, second).ok()?;
    let c = join(store, a, b).ok()?;
    let d = join(store, b, a).ok()?;
    Some((c, d))
}
