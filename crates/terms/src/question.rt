// Questions: the form of simplified equations.
ghost use Rattle.std.specs.Prelude.{◌≡◌};
ghost use Rattle.terms.specs.Form as form;

use crate::term::Equation;

// Whether an equation is a simplified question.
#[tactic(auto, unfolding(crate::specs::Form::is_simplified))]
pub fn is_simplified(e: Equation) -> bool
    ensures { result ≡ form.is_simplified e }
{
    e.right.field.0 < e.left.field.0
        && (e.left.steps.0 == 0 || (e.right.steps.0 == 0 && e.right.field.0 != 0))
}
