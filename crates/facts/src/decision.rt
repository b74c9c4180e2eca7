// What the facts say of a question, and what a question answered yes asks of them.
ghost use Rattle.std.specs.Prelude.{◌≡◌};
ghost use Rattle.facts.specs.Needs.{Down};
ghost use Rattle.facts.specs.State as state;

use crate::place::Place;

// A question is true under every choice of counts that fits the facts, false under every such choice, or neither.
#[derive(Clone, Copy)]
pub enum Decision {
    Always,
    Never,
    Open,
}

// The class `from` becomes part of the class `into`, its base `by` above.
#[derive(Clone, Copy)]
pub struct Join {
    pub into: u32,
    pub from: u32,
    pub by: u32,
}

// What an answer yes asks for: nothing, the impossible, or a join of two classes.
#[derive(Clone, Copy)]
pub enum Plan {
    Keep,
    Clash,
    Join(Join),
}

// What it takes that two terms at these places have one value.
#[tactic(auto, unfolding(crate::specs::State::plan))]
pub fn plan_yes(l: Place, r: Place) -> Plan
    ensures { result ≡ state.plan l.class r.class l.offset r.offset }
{
    if l.class == r.class {
        if l.offset == r.offset {
            return Plan::Keep;
        }
        return Plan::Clash;
    }
    if r.offset <= l.offset {
        return down(l, r);
    }
    if l.class == 0 {
        return Plan::Clash;
    }
    Plan::Join(Join {
        into: r.class,
        from: l.class,
        by: r.offset - l.offset,
    })
}

// The same where the classes differ and the right term is no further above its base.
#[tactic(auto, unfolding(crate::specs::State::plan))]
fn down(l: Place, r: Place) -> Plan
    requires { Down l.class r.class l.offset r.offset }
    ensures { result ≡ state.plan l.class r.class l.offset r.offset }
{
    if r.class == 0 {
        if l.offset == r.offset {
            return Plan::Join(Join {
                into: 0,
                from: l.class,
                by: 0,
            });
        }
        return Plan::Clash;
    }
    Plan::Join(Join {
        into: l.class,
        from: r.class,
        by: l.offset - r.offset,
    })
}
