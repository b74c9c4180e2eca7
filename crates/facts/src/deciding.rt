// What the facts say of a question, without working an answer in: the questions answered no are looked at as a join would leave them.
ghost use Rattle.std.specs.Prelude.{◌≡◌};
ghost use Rattle.facts.specs.Needs as need;
ghost use Rattle.facts.specs.Record as spec;
ghost use Rattle.facts.specs.State as state;

use crate::decision::{Decision, Join, Plan, plan_yes};
use crate::place::place_of;
use crate::record::{Facts, Places};
use terms::Equation;

// What an answer yes to a question asks of the places.
pub fn plan_in(places: &Places, q: Equation) -> Plan
    requires { need.HasPlaces places.now q 0 }
    ensures { result ≡ state.plan_of (spec.classes_in places.now) q }
{
    plan_yes(place_of(places, q.left), place_of(places, q.right))
}

// Whether a join settles a question.
fn settles(join: Join, places: &Places, q: Equation) -> bool
    requires { need.HasPlaces places.now q join.by }
    ensures { result ≡ state.settled (state.joined (spec.classes_in places.now) join) q }
{
    place_of(places, q.left).joined(join) == place_of(places, q.right).joined(join)
}

// Whether a join settles no question answered no. The record is lent: by value it would be copied for each question that is asked.
// A `for` and no `all`: its closure would have to be told that each pair is small, which the loop has from the list.
fn join_is_free(f: &Facts, join: Join) -> bool
    requires { need.CanJoin f.now join.by }
    ensures { result ≡ state.free (state.planned (spec.state f.now) (Plan.Join join)) }
{
    for pair in f.noes.listed() {
        if settles(join, &f.places, pair.question()) {
            return false;
        }
    }
    true
}

// What the facts say of a question.
pub fn decision_of(f: Facts, q: Equation) -> Decision
    requires { need.Askable f q }
    ensures { result ≡ state.decide (spec.state f) q }
{
    match plan_in(&f.places, q) {
        Plan::Keep => Decision::Always,
        Plan::Clash => Decision::Never,
        Plan::Join(join) => {
            if join_is_free(&f, join) {
                return Decision::Open;
            }
            Decision::Never
        }
    }
}
