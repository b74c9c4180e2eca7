// The verdict of a handle.
ghost use Rattle.std.specs.Prelude.{◌≡◌};
ghost use Rattle.terms.specs.Limits as limit;
ghost use Rattle.terms.specs.Needs.{FitLimits};
ghost use Rattle.verdicts.specs.Verdict as spec;

use crate::answer::VerdictFault;
use crate::leaves::leaves_from;
use facts::no_facts;
use soundness::is_sound;
use store::{Verdict, has_handle, wide};
use terms::{Limits, limits_of_store};

// The verdict of a handle within limits.
#[tactic(auto, unfolding(crate::specs::Verdict::verdict))]
pub fn verdict_within(limits: Limits, s: &[u32], handle: u32) -> Result<Verdict, VerdictFault>
    requires { FitLimits limits }
    ensures { result ≡ spec.verdict limits s.now handle }
{
    // Each operation makes these two tests itself: a shared one would be given its two faults, and what it says of the store taken apart again here.
    if !is_sound(limits, s) {
        return Err(VerdictFault::NotSound);
    }
    if !has_handle(s, handle) {
        return Err(VerdictFault::NoHandle);
    }
    let leaves = leaves_from(s, wide(handle), no_facts());
    Ok(leaves.pick(Verdict::Never, Verdict::Always, Verdict::Sometimes))
}

// The verdict of a handle.
pub fn verdict_of(s: &[u32], handle: u32) -> Result<Verdict, VerdictFault>
    ensures { result ≡ spec.verdict limit.store_limits s.now handle }
{
    verdict_within(limits_of_store(), s, handle)
}
