// Truth tables with a third value, for what the facts leave open.
ghost use Rattle.std.specs.Prelude.{◌≡◌};
ghost use Rattle.walking.specs.Value as spec;

use facts::Decision;

// The value of a leaf. A function and no `From<bool>`, which would stand beside `Decision` in facts, where no leaf is known.
pub fn leaf_value(b: bool) -> Decision
    ensures { result ≡ spec.leaf_value b }
{
    if b { Decision::Always } else { Decision::Never }
}

// What a and b have in common.
fn agreed(a: Decision, b: Decision) -> Decision
    ensures { result ≡ spec.agreed a b }
{
    match (a, b) {
        (Decision::Always, Decision::Always) => Decision::Always,
        (Decision::Never, Decision::Never) => Decision::Never,
        _ => Decision::Open,
    }
}

// If a then b else c.
pub fn choose_value(a: Decision, b: Decision, c: Decision) -> Decision
    ensures { result ≡ spec.choose_value a b c }
{
    match a {
        Decision::Always => b,
        Decision::Never => c,
        Decision::Open => agreed(b, c),
    }
}
