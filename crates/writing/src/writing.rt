// Writing a handle back as a rule table.
ghost use Rattle.std.specs.Prelude.{◌≡◌, cond, ◌+◌, ◌*◌, ◌≤◌, eqb};
ghost use Rattle.store.specs.Outcome.{outcome};
ghost use Rattle.terms.specs.Limits as limit;
ghost use Rattle.terms.specs.Needs.{FitLimits};
ghost use Rattle.writing.specs.Needs as arrays;
ghost use Rattle.writing.specs.WriteBack as back;

use crate::answer::WriteFault;
use crate::marking::Reach;
use crate::rows::write_rows;
use soundness::is_sound;
use store::{has_handle, wide};
use tables::{MOST_ROWS, ROW_LENGTH};
use terms::{Limits, limits_of_store};

// How many rows a handle has, from how many entries are reachable from it.
fn count_rows(handle: usize, entries: u32) -> u32
    requires { entries ≤ limit.most_entries }
    ensures { result ≡ cond (eqb handle 0) 1 (2 + 2 * entries) }
{
    if handle == 0 { 1 } else { 2 + 2 * entries }
}

// Writes a handle of a sound store back.
fn write_sound(s: &[u32], handle: usize, out: &mut [u32]) -> Result<u32, WriteFault>
    requires { arrays.Handled s.now handle }
    ensures { outcome result out.new ≡ back.rows_written s.now handle out.old }
{
    let mut reach = Reach::none();
    reach.mark_down(s, handle);
    let count = count_rows(handle, reach.number_rows(handle));
    let n = wide(count);
    if MOST_ROWS < n {
        return Err(WriteFault::TooManyRows);
    }
    if out.len() < ROW_LENGTH * n {
        return Err(WriteFault::TooShort);
    }
    write_rows(s, &reach, handle, out);
    Ok(count)
}

// Writes a handle back within limits.
#[tactic(auto, unfolding(crate::specs::WriteBack::write_back))]
pub fn write_back_within(
    limits: Limits,
    s: &[u32],
    handle: u32,
    out: &mut [u32],
) -> Result<u32, WriteFault>
    requires { FitLimits limits }
    ensures { outcome result out.new ≡ back.write_back limits s.now handle out.old }
{
    // Each operation makes these two tests itself: a shared one would be given its two faults, and what it says of the store taken apart again here.
    if !is_sound(limits, s) {
        return Err(WriteFault::NotSound);
    }
    if !has_handle(s, handle) {
        return Err(WriteFault::NoHandle);
    }
    write_sound(s, wide(handle), out)
}

// Writes a handle back.
pub fn write_back(s: &[u32], handle: u32, out: &mut [u32]) -> Result<u32, WriteFault>
    ensures { outcome result out.new ≡ back.write_back limit.store_limits s.now handle out.old }
{
    write_back_within(limits_of_store(), s, handle, out)
}
