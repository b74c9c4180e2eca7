// The least sheet that fits the facts.
ghost use Rattle.std.specs.Prelude.{◌≡◌};
ghost use Rattle.facts.specs.Least as least;
ghost use Rattle.facts.specs.Needs as need;
ghost use Rattle.facts.specs.Record as spec;

use crate::asking::yes;
use crate::record::{FIELDS, Facts, offset_of};
use terms::{Equation, Field, Steps, Term};

// The counts of a sheet, each at its field's number: the library has no heap, so there is a place for every field.
#[derive(Clone, Copy)]
pub struct Sheet {
    pub counts: [u32; FIELDS],
}

// The question whether a field has a count.
pub fn has_count(x: Field, count: u32) -> Equation
    ensures { result ≡ least.counts x.0 count }
{
    Equation {
        left: Term {
            field: x,
            steps: Steps(0),
        },
        right: Term {
            field: Field(0),
            steps: Steps(count),
        },
    }
}

// The least count that a field can have, worked into the facts: no count is below the field's offset, and above it a candidate fails only
// where a question answered no would be settled.
fn fix_field(f: &mut Facts, x: Field) -> u32
    requires { need.CanFix f.old x.0 }
    ensures { need.FixedAt f.old x.0 result f.new }
{
    let old = *f;
    // The least count is below the range's end, so the search does not get there.
    for count in offset_of(old, x).. {
        if let Some(g) = yes(old, has_count(x, count)) {
            *f = g;
            return count;
        }
    }
    unreachable!()
}

// The least sheet of the fields 1 to n that fits the facts: each field in turn has the least count that it can have beside those before it.
pub fn least_sheet(mut f: Facts, n: u32) -> Sheet
    requires { need.HasLeast f n }
    ensures { spec.LeastCounts f n result }
{
    let mut counts = [0u32; FIELDS];
    for i in 1..=n {
        counts[i as usize] = fix_field(&mut f, Field(i));
    }
    Sheet { counts }
}
