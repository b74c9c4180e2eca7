// Giving an example of a handle.
ghost use Rattle.std.specs.Prelude.{◌≡◌, length};
ghost use Rattle.examples.specs.Example as spec;
ghost use Rattle.examples.specs.Needs.{sheet_of, CanWriteSheet, CanGive};
ghost use Rattle.store.specs.Outcome.{outcome};
ghost use Rattle.terms.specs.Limits as limit;
ghost use Rattle.terms.specs.Needs.{FitLimits};

use crate::answer::ExampleFault;
use crate::best::best_from;
use facts::{Sheet, no_facts};
use soundness::is_sound;
use store::{field_count, has_handle, wide};
use terms::{Limits, limits_of_store};

// Writes the counts of the fields from 1 on.
fn write_sheet(sheet: Sheet, out: &mut [u16])
    requires { CanWriteSheet sheet out.old }
    ensures { out.new ≡ sheet_of (length out.old) sheet }
{
    for (i, place) in out.iter_mut().enumerate() {
        *place = sheet.counts[i + 1] as u16;
    }
}

// Writes the example of a handle of a sound store, into a slice with a place for each field.
fn write_example(s: &[u32], handle: usize, out: &mut [u16]) -> Result<(), ExampleFault>
    requires { CanGive s.now handle out.old }
    ensures { outcome result out.new ≡ spec.given (spec.best_sheet s.now handle) out.old }
{
    let found = best_from(s, handle, no_facts(), field_count(s), None);
    write_sheet(found.ok_or(ExampleFault::Nothing)?, out);
    Ok(())
}

// The example of a handle within limits.
#[tactic(auto, unfolding(crate::specs::Example::example))]
pub fn example_within(
    limits: Limits,
    s: &[u32],
    handle: u32,
    out: &mut [u16],
) -> Result<(), ExampleFault>
    requires { FitLimits limits }
    ensures { outcome result out.new ≡ spec.example limits s.now handle out.old }
{
    // Each operation makes these two tests: a shared one would give a fault of its own, and converting it is as long as the tests.
    if !is_sound(limits, s) {
        return Err(ExampleFault::NotSound);
    }
    if !has_handle(s, handle) {
        return Err(ExampleFault::NoHandle);
    }
    if out.len() != wide(field_count(s)) {
        return Err(ExampleFault::WrongLength);
    }
    write_example(s, wide(handle), out)
}

// The example of a handle.
pub fn example_of(s: &[u32], handle: u32, out: &mut [u16]) -> Result<(), ExampleFault>
    ensures { outcome result out.new ≡ spec.example limit.store_limits s.now handle out.old }
{
    example_within(limits_of_store(), s, handle, out)
}
