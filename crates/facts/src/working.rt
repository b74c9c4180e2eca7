// Working an answer into the facts.
ghost use Rattle.std.specs.Prelude.{◌≡◌};
ghost use Rattle.facts.specs.Needs as need;
ghost use Rattle.facts.specs.Record as spec;
ghost use Rattle.facts.specs.State as state;

use crate::deciding::plan_in;
use crate::decision::{Join, Plan};
use crate::fact::Fact;
use crate::record::Facts;
use terms::Equation;

// Every field's place is that of the joined classes.
fn with_join(mut f: Facts, join: Join) -> Facts
    requires { need.CanJoinPlaces f join }
    ensures { spec.state result ≡ state.planned (spec.state f) (Plan.Join join) }
{
    for p in f.places.iter_mut() {
        *p = p.joined(join);
    }
    f
}

// The facts with a question answered yes, where it is known that some choice of counts fits them then: there is no clash, and nothing is tested again.
fn with_yes(f: Facts, q: Equation) -> Facts
    requires { need.CanAnswerYes f q }
    ensures { spec.state result ≡ state.yes_to (spec.state f) q }
{
    match plan_in(&f.places, q) {
        Plan::Keep => f,
        Plan::Clash => f,
        Plan::Join(join) => with_join(f, join),
    }
}

// The facts with a question answered no.
fn with_no(mut f: Facts, q: Equation) -> Facts
    requires { need.CanAnswerNo f q }
    ensures { spec.state result ≡ state.no_to (spec.state f) q }
{
    f.noes.push(q);
    f
}

// The facts with one more, whichever its answer.
pub fn added(f: Facts, x: Fact) -> Facts
    requires { need.CanAddFact f x }
    ensures { spec.state result ≡ state.work_in (spec.state f) x.question x.answer }
{
    let q = x.question;
    if x.answer {
        return with_yes(f, q);
    }
    with_no(f, q)
}
