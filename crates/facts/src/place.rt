// Where a field's count stands, or a term's.
ghost use Rattle.std.specs.Prelude.{◌≡◌, ◌+◌, ◌<◌, ◌^◌};
ghost use Rattle.facts.specs.Needs as need;
ghost use Rattle.facts.specs.Record as spec;
ghost use Rattle.facts.specs.State as state;

use crate::decision::Join;
use crate::record::Places;
use terms::Term;

// So much above the base of a class.
#[derive(Clone, Copy, PartialEq, Eq)]
pub struct Place {
    pub class: u32,
    pub offset: u32,
}

impl Place {
    // The place once the class `from` is part of the class `into`, its base `by` above.
    pub fn joined(self, join: Join) -> Place
        requires { self.offset + join.by < 2 ^ 32 }
        ensures { result ≡ need.place_joined join self }
    {
        if self.class == join.from {
            return Place {
                class: join.into,
                offset: self.offset + join.by,
            };
        }
        self
    }
}

// The place of a term: its field's, as many steps above.
pub fn place_of(places: &Places, t: Term) -> Place
    requires { need.HasPlace places.now t 0 }
    ensures { result ≡ state.place (spec.classes_in places.now) t }
{
    let p = places[t.field.0 as usize];
    Place {
        class: p.class,
        offset: p.offset + t.steps.0,
    }
}
