// The facts of a sheet: what its counted fields count.
ghost use Rattle.std.specs.Prelude.{◌≤◌, length};
ghost use Rattle.facts.specs.Record.{last_field};
ghost use Rattle.reading.specs.Needs.{HoldsCounts};

use facts::{Fact, Facts, add, has_count, no_facts};
use terms::Field;

// A field with this count was not counted.
pub const BLANK: u16 = 65535;

// A fact for each counted field. No fact so far names the field, so whatever it counts fits them.
pub fn facts_of(sheet: &[u16]) -> Facts
    requires { length sheet.now ≤ last_field }
    ensures { HoldsCounts sheet.now (length sheet.now) result }
{
    let mut f = no_facts();
    for (k, &count) in sheet.iter().enumerate() {
        if count != BLANK {
            let question = has_count(Field(k as u32 + 1), u32::from(count));
            add(
                &mut f,
                Fact {
                    question,
                    answer: true,
                },
            );
        }
    }
    f
}
