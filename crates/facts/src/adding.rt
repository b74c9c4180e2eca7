// Adding a fact to a record that is lent.
ghost use Rattle.std.specs.Prelude.{◌≡◌, ◌<◌};
ghost use Rattle.facts.specs.Needs as need;
ghost use Rattle.facts.specs.Record as spec;
ghost use Rattle.facts.specs.State as state;
ghost use Rattle.terms.specs.Limits.{most_count};

use crate::fact::Fact;
use crate::record::Facts;
use crate::working::added;
use terms::Equation;

// Adds a fact, whichever its answer: the record is worked on by value and stored back whole.
pub fn add(f: &mut Facts, x: Fact)
    requires { need.CanAddFact f.old x }
    ensures { spec.state f.new ≡ state.work_in (spec.state f.old) x.question x.answer }
{
    *f = added(*f, x);
}

// The facts with a question answered no.
pub fn no(mut f: Facts, q: Equation) -> Facts
    requires small { spec.Small most_count q }
    requires noes_lt_most_noes { f.noes.count < spec.most_noes }
    ensures { spec.state result ≡ state.no_to (spec.state f) q }
{
    add(
        &mut f,
        Fact {
            question: q,
            answer: false,
        },
    );
    f
}
