// Simplify, from C.
ghost use Rattle.std.specs.Prelude.{◌≡◌};
ghost use Rattle.terms.specs.Limits.{term_limits};
ghost use Rattle.terms.specs.Simplify.{answer, simplify_words};

use terms::{SimplifyAnswer, simplify};

// Simplifies the equation of two term words.
#[unsafe(no_mangle)]
pub extern "C" fn sheet_simplify(a: u32, b: u32) -> SimplifyAnswer
    ensures { result ≡ answer (simplify_words term_limits a b) }
{
    SimplifyAnswer::from(simplify(a, b))
}
