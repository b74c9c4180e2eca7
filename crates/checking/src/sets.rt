// A set of fields in one word: the bit f stands for field f. No type of its own, which would be taken apart at each bit.
ghost use Rattle.std.specs.Prelude.{◌≡◌, ◌<◌, ◌^◌};
ghost use Rattle.checking.specs.FieldSets.{both_fields, has_field};
ghost use Rattle.checking.specs.Needs.{bits, SmallFields};

use terms::Equation;

// The set of one field.
fn only(f: u32) -> u32
    requires { f < bits }
    ensures { result ≡ 2 ^ f }
{
    1 << f
}

// The two fields of an equation.
pub fn both_fields(g: Equation) -> u32
    requires { SmallFields g }
    ensures { result ≡ both_fields g }
{
    only(g.left.field.0) | only(g.right.field.0)
}

// Whether a field is in a set.
pub fn has_field(set: u32, f: u32) -> bool
    requires { f < bits }
    ensures { result ≡ has_field f set }
{
    (set >> f) % 2 == 1
}
