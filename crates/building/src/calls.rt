// Build, negate, join and choose.
ghost use Rattle.std.specs.Prelude.{◌≡◌, ◌≤◌, length};
ghost use Rattle.building.specs.Needs.{are_handles};
ghost use Rattle.operations.specs.Operations as operation;
ghost use Rattle.store.specs.Layout as layout;
ghost use Rattle.store.specs.Outcome.{outcome};
ghost use Rattle.terms.specs.Limits as limit;
ghost use Rattle.terms.specs.Needs.{FitLimits};

use inserting::add;
use operations::BuildFault;
use soundness::is_sound;
use store::has_handle;
use tables::table_fault;
use terms::{Limits, limits_of_store};
use walking::Subject;

// Adds the diagram of a rule table within limits.
pub fn build_within(limits: Limits, store: &mut [u32], table: &[u32]) -> Result<u32, BuildFault>
    requires { FitLimits limits }
    ensures { outcome result store.new ≡ operation.build limits store.old table.now }
{
    // Each operation makes this test itself, as in reading.
    if !is_sound(limits, store) {
        return Err(BuildFault::NotSound);
    }
    // A `match` and no `?`, so that a wrong edit can put another fault in the place of the table's.
    match table_fault(limits, store, table) {
        Ok(()) => add(limits, store, Subject::Table(table)),
        Err(fault) => Err(BuildFault::from(fault)),
    }
}

// The handles of the leaves.
const NEVER: u32 = 0;

const ALWAYS: u32 = 1;

// Whether three handles are handles of the store.
fn has_handles(s: &[u32], a: u32, b: u32, c: u32) -> bool
    requires { layout.heading_length ≤ length s.now }
    ensures { result ≡ are_handles s.now a b c }
{
    has_handle(s, a) && has_handle(s, b) && has_handle(s, c)
}

// Adds the diagram of if a then b else c within limits. The three handles stay apart, as C gives them.
pub fn choose_within(
    limits: Limits,
    store: &mut [u32],
    a: u32,
    b: u32,
    c: u32,
) -> Result<u32, BuildFault>
    requires { FitLimits limits }
    ensures { outcome result store.new ≡ operation.choose limits store.old a b c }
{
    // Each operation makes this test itself, as in reading.
    if !is_sound(limits, store) {
        return Err(BuildFault::NotSound);
    }
    if !has_handles(store, a, b, c) {
        return Err(BuildFault::NoHandle);
    }
    add(
        limits,
        store,
        Subject::Choice {
            first: a,
            second: b,
            third: c,
        },
    )
}

// Adds the diagram of a and b within limits: if a then b else never.
pub fn join_within(limits: Limits, store: &mut [u32], a: u32, b: u32) -> Result<u32, BuildFault>
    requires { FitLimits limits }
    ensures { outcome result store.new ≡ operation.join limits store.old a b }
{
    choose_within(limits, store, a, b, NEVER)
}

// Adds the diagram of not a within limits: if a then never else always.
pub fn negate_within(limits: Limits, store: &mut [u32], a: u32) -> Result<u32, BuildFault>
    requires { FitLimits limits }
    ensures { outcome result store.new ≡ operation.negate limits store.old a }
{
    choose_within(limits, store, a, NEVER, ALWAYS)
}

// Builds the rule of a table.
pub fn build(store: &mut [u32], table: &[u32]) -> Result<u32, BuildFault>
    ensures { outcome result store.new ≡ operation.build limit.store_limits store.old table.now }
{
    build_within(limits_of_store(), store, table)
}

// Negates a handle.
pub fn negate(store: &mut [u32], a: u32) -> Result<u32, BuildFault>
    ensures { outcome result store.new ≡ operation.negate limit.store_limits store.old a }
{
    negate_within(limits_of_store(), store, a)
}

// Joins two handles.
pub fn join(store: &mut [u32], a: u32, b: u32) -> Result<u32, BuildFault>
    ensures { outcome result store.new ≡ operation.join limit.store_limits store.old a b }
{
    join_within(limits_of_store(), store, a, b)
}

// Chooses by three handles.
pub fn choose(store: &mut [u32], a: u32, b: u32, c: u32) -> Result<u32, BuildFault>
    ensures { outcome result store.new ≡ operation.choose limit.store_limits store.old a b c }
{
    choose_within(limits_of_store(), store, a, b, c)
}
