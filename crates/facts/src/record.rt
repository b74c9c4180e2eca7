// The record of the facts gathered along a path.
ghost use Rattle.std.specs.Prelude.{◌≡◌, ◌≤◌};
ghost use Rattle.facts.specs.Record as spec;
ghost use Rattle.facts.specs.State as state;

use crate::noes::Noes;
use crate::place::Place;
use terms::{Field, MOST_FIELDS};

// The fields that a record has room for, field 0 among them.
pub const FIELDS: usize = MOST_FIELDS as usize + 1;

// A place for each field.
pub type Places = [Place; FIELDS];

// Each field's place, and the questions answered no.
#[derive(Clone, Copy)]
pub struct Facts {
    pub places: Places,
    pub noes: Noes,
}

// No facts: each field is a class of its own.
pub fn no_facts() -> Facts
    ensures { spec.state result ≡ state.start }
{
    Facts {
        places: std::array::from_fn(|i| Place {
            class: i as u32,
            offset: 0,
        }),
        noes: Noes::none(),
    }
}

// The offset of a field.
pub fn offset_of(f: Facts, x: Field) -> u32
    requires { x.0 ≤ spec.last_field }
    ensures { result ≡ (spec.state f).classes.offset x.0 }
{
    f.places[x.0 as usize].offset
}
