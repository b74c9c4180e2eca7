// Why build, negate, join and choose refuse, and document 01's numbers for it.
ghost use Rattle.std.specs.Prelude.{◌≡◌};
ghost use Rattle.operations.specs.Built as spec;
ghost use Rattle.operations.specs.declared.answer.BuildFault.TheVariants.{BadTable};

use tables::TableFault;
use terms::Refusal;

// Why no diagram is added.
#[derive(Clone, Copy, Debug, PartialEq, Eq)]
pub enum BuildFault {
    NotSound,
    NoHandle,
    BadTable(TableFault),
    NoRoom,
}

impl Refusal for BuildFault {
    ghost number_of = { spec.build_fault_number };

    fn number(self) -> u32 {
        match self {
            BuildFault::NotSound => 22,
            BuildFault::NoHandle => 41,
            BuildFault::BadTable(t) => t.number(),
            BuildFault::NoRoom => 51,
        }
    }
}

impl From<TableFault> for BuildFault {
    ghost from_gives = { λ t f. f ≡ BadTable t };

    fn from(t: TableFault) -> BuildFault {
        BuildFault::BadTable(t)
    }
}
