// What the facts say of the subject of a walk.
ghost use Rattle.std.specs.Prelude.{◌≡◌};
ghost use Rattle.facts.specs.Record as facts;
ghost use Rattle.walking.specs.Needs.{HasValue};
ghost use Rattle.walking.specs.Value as spec;

use crate::handles::handle_value;
use crate::rows::table_value;
use crate::subject::Subject;
use crate::truths::choose_value;
use facts::{Decision, Facts};

// The value of a table, or of three handles of the store.
pub fn value(s: &[u32], subject: Subject, f: &Facts) -> Decision
    requires { HasValue s.now subject f.now }
    ensures { result ≡ spec.subject_value s.now subject.entry (facts.state f.now) }
{
    match subject {
        Subject::Table(rows) => table_value(rows, f),
        Subject::Choice {
            first,
            second,
            third,
        } => choose_value(
            handle_value(s, first, f),
            handle_value(s, second, f),
            handle_value(s, third, f),
        ),
    }
}
