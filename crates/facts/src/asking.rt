// Asking a question of the facts.
ghost use Rattle.facts.specs.Needs as need;
ghost use Rattle.facts.specs.Record as spec;

use crate::adding::add;
use crate::deciding::decision_of;
use crate::decision::Decision;
use crate::fact::Fact;
use crate::record::Facts;
use terms::Equation;

// What the facts say of a question: where it is open, with the facts that have it answered yes. Not one generic enum with Decision: the definitions
// match on both by name, and the parameter would stand in each of them.
#[derive(Clone, Copy)]
pub enum Asked {
    Always,
    Never,
    Open(Facts),
}

// What is asked for, `Askable`, is of a record and a question together, so it is an invariant of neither.
// The question is decided first, and a yes is worked in only where it is open.
pub fn ask(mut f: Facts, q: Equation) -> Asked
    requires { need.Askable f q }
    ensures { spec.AskedOf f q result }
{
    match decision_of(f, q) {
        Decision::Always => Asked::Always,
        Decision::Never => Asked::Never,
        Decision::Open => {
            add(
                &mut f,
                Fact {
                    question: q,
                    answer: true,
                },
            );
            Asked::Open(f)
        }
    }
}

// The facts with a question answered yes, if some choice of counts fits them then.
pub fn yes(f: Facts, q: Equation) -> Option<Facts>
    requires { need.Askable f q }
    ensures { spec.WorkedYes f q result }
{
    match ask(f, q) {
        Asked::Always => Some(f),
        Asked::Never => None,
        Asked::Open(g) => Some(g),
    }
}
