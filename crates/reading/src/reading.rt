// Whether a sheet, on which some fields may not be counted, satisfies a handle.
ghost use Rattle.std.specs.Prelude.{◌≡◌};
ghost use Rattle.reading.specs.Read as spec;
ghost use Rattle.terms.specs.Limits as limit;
ghost use Rattle.terms.specs.Needs.{FitLimits};

use crate::answer::{ReadFault, Reading};
use crate::counting::{BLANK, facts_of};
use crate::following::read_sound;
use soundness::is_sound;
use store::{field_count, has_handle, wide};
use terms::{Limits, limits_of_store};
use verdicts::leaves_from;

// Reads a sheet against a handle within limits.
#[tactic(auto, unfolding(crate::specs::Read::read_sheet))]
pub fn read_within(
    limits: Limits,
    s: &[u32],
    handle: u32,
    sheet: &[u16],
) -> Result<Reading, ReadFault>
    requires { FitLimits limits }
    ensures { result ≡ spec.read_sheet limits s.now handle sheet.now }
{
    // Each operation makes these two tests itself: a shared one would be given its two faults, and what it says of the store taken apart again here.
    if !is_sound(limits, s) {
        return Err(ReadFault::NotSound);
    }
    if !has_handle(s, handle) {
        return Err(ReadFault::NoHandle);
    }
    if sheet.len() != wide(field_count(s)) {
        return Err(ReadFault::WrongLength);
    }
    // A sheet without blanks answers each question itself: it needs no facts, and is read faster without them.
    if !sheet.contains(&BLANK) {
        return Ok(Reading::from(read_sound(s, handle, sheet)));
    }
    let leaves = leaves_from(s, wide(handle), facts_of(sheet));
    Ok(leaves.pick(Reading::Fails, Reading::Satisfies, Reading::Depends))
}

// Reads a sheet against a handle.
pub fn read(s: &[u32], handle: u32, sheet: &[u16]) -> Result<Reading, ReadFault>
    ensures { result ≡ spec.read_sheet limit.store_limits s.now handle sheet.now }
{
    read_within(limits_of_store(), s, handle, sheet)
}
