// The check of another tool's diagrams, from C.
ghost use Rattle.std.specs.Prelude.{◌≡◌};
ghost use Rattle.normal_form.specs.Check.{check};
ghost use Rattle.normal_form.specs.Limits.{table_limits};
ghost use Rattle.sheet.specs.Answers as spec;

use crate::answers::Answer;
use checking::check_normal_form;
use store::verdict_result;

// Checks that a table and a root are in Definition 28's normal form.
#[unsafe(no_mangle)]
pub extern "C" fn sheet_check_normal_form(table: &[u32], root: u32) -> Answer
    ensures { result ≡ spec.checked_answer (check table_limits table.now root) }
{
    let checked = check_normal_form(table, root);
    Answer::of(checked, verdict_result(checked))
}
