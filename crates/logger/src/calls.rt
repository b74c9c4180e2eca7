// Open and build at the logger's limits: the code of open and build, so that the same calls make the same store.
ghost use Rattle.std.specs.Prelude.{◌≡◌};
ghost use Rattle.operations.specs.Operations as operation;
ghost use Rattle.store.specs.Open.{open_store};
ghost use Rattle.store.specs.Outcome.{outcome};
ghost use Rattle.terms.specs.Limits as limit;

use building::build_within;
use operations::BuildFault;
use store::{OpenFault, open_within};
use terms::limits_of_logger;

// Opens a logger's store for n fields and a list of questions in the order that a number names.
pub fn logger_open(n: u32, order: u32, list: &[u32], store: &mut [u32]) -> Result<(), OpenFault>
    ensures { outcome result store.new ≡ open_store limit.logger_limits n order list.now store.old }
{
    open_within(limits_of_logger(), n, order, list, store)
}

// Builds the rule of a table in a logger's store.
pub fn logger_build(store: &mut [u32], table: &[u32]) -> Result<u32, BuildFault>
    ensures { outcome result store.new ≡ operation.build limit.logger_limits store.old table.now }
{
    build_within(limits_of_logger(), store, table)
}
