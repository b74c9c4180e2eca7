// What is wrong with a rule table, and document 01's numbers for it.
ghost use Rattle.std.specs.Prelude.{◌≡◌};
ghost use Rattle.tables.specs.TableFault as spec;

use terms::Refusal;

// A rule that a table breaks.
#[derive(Clone, Copy, Debug, PartialEq, Eq)]
pub enum TableFault {
    NoWords,
    NotRows,
    TooManyRows,
    BadRow,
    OutOfLimits,
    NotListed,
}

impl Refusal for TableFault {
    ghost number_of = { spec.table_fault_number };

    fn number(self) -> u32 {
        match self {
            TableFault::NoWords => 31,
            TableFault::NotRows => 32,
            TableFault::TooManyRows => 33,
            TableFault::BadRow => 34,
            TableFault::OutOfLimits => 35,
            TableFault::NotListed => 36,
        }
    }
}
