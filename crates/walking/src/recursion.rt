// The walk over the questions of a list.
ghost use Rattle.std.specs.Prelude.{◌≡◌};
ghost use Rattle.facts.specs.Record as facts;
ghost use Rattle.store.specs.Outcome.{outcome};
ghost use Rattle.walking.specs.Needs.{leaf_of, CanWalk, InIndex};
ghost use Rattle.walking.specs.Walk as spec;

use crate::placing::place_parts;
use crate::subject::Subject;
use crate::valuing::value;
use facts::{Asked, Decision, Facts, ask, no};
use index::Index;
use store::{Entry, question_at, wide};
use terms::Limits;

// What a walk finishes a diagram for, and within which limits.
#[derive(Clone, Copy)]
pub struct Goal<'a> {
    pub limits: Limits,
    pub subject: Subject<'a>,
}

// The leaf of a value that is known.
fn leaf(d: Decision) -> u32
    ensures { result ≡ leaf_of d }
{
    match d {
        Decision::Always => 1,
        Decision::Never | Decision::Open => 0,
    }
}

// The diagram of the goal's subject under the facts, over the questions from the k-th on, of which so many are left.
// That number is the measure that ends the recursion.
pub fn walk(
    goal: &Goal,
    store: &mut [u32],
    index: &mut Index,
    f: &Facts,
    k: u32,
    left: u32,
) -> Option<u32>
    requires can_walk { CanWalk goal.now.limits store.old goal.now.subject f.now k left }
    requires in_index { InIndex store.old index.old }
    ensures store_after { outcome result store.new
        ≡ spec.walk goal.now.limits store.old goal.now.subject left k (facts.state f.now) }
    ensures in_index_2 { InIndex store.new index.new }
{
    let known = value(store, goal.subject, f);
    if left == 0 {
        return Some(leaf(known));
    }
    let Decision::Open = known else {
        return Some(leaf(known));
    };
    let q = question_at(store, wide(k));
    let Asked::Open(yes) = ask(*f, q) else {
        return walk(goal, store, index, f, k + 1, left - 1);
    };
    let other = no(*f, q);
    let y = walk(goal, store, index, &yes, k + 1, left - 1)?;
    let n = walk(goal, store, index, &other, k + 1, left - 1)?;
    let e = Entry {
        question: k,
        yes: y,
        no: n,
    };
    place_parts(goal.limits, store, index, e)
}
