// Adding an entry to a store, unless it is there: an index over the entries finds one that is there. The store and its index are two loans and no
// struct: an entry goes into the one after it is written to the other, so an invariant of both would not hold at each write.
ghost use Rattle.std.specs.Prelude.{◌≡◌};
ghost use Rattle.diagram.specs.Insert as spec;
ghost use Rattle.store.specs.Outcome.{outcome};
ghost use Rattle.walking.specs.Needs.{InIndex, CanPlace};
ghost use Rattle.walking.specs.Walk as walking;

use index::Index;
use store::{Entry, LEAVES, append, entries_start, room, used, wide};
use terms::Limits;

// The handle of an entry: one that is there, or a new one where there is room.
pub fn place_entry(limits: Limits, store: &mut [u32], index: &mut Index, e: Entry) -> Option<u32>
    requires { CanPlace limits store.old index.old }
    ensures store_after { outcome result store.new ≡ spec.place_entry limits store.old e }
    ensures in_index { InIndex store.new index.new }
{
    let start = entries_start(store);
    if let Some(i) = index.find(store, start, e) {
        return Some((i + LEAVES) as u32);
    }
    let entries = wide(used(store));
    if entries < room(limits, store) {
        append(store, e);
        index.put(e);
        return Some((entries + LEAVES) as u32);
    }
    None
}

// The handle of a question and its two parts: if they are the same, that part stands.
#[tactic(auto, unfolding(crate::specs::Walk::place_parts))]
pub fn place_parts(limits: Limits, store: &mut [u32], index: &mut Index, e: Entry) -> Option<u32>
    requires { CanPlace limits store.old index.old }
    ensures store_after { outcome result store.new ≡ walking.place_parts limits store.old e }
    ensures in_index { InIndex store.new index.new }
{
    if e.yes == e.no {
        return Some(e.yes);
    }
    place_entry(limits, store, index, e)
}
