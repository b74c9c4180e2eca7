// What opening refuses, and the documents' numbers for it.
ghost use Rattle.store.specs.Opened as spec;
ghost use Rattle.store.specs.declared.answer.OpenFault.TheVariants as fault;
ghost use Rattle.std.specs.Prelude.{◌≡◌};

use terms::{Refusal, UnknownOrder};

// A rule that what opening is given breaks: the number of fields, the order, the list, or the store that is lent for it.
#[derive(Clone, Copy, Debug, PartialEq, Eq)]
pub enum OpenFault {
    TooManyFields,
    UnknownOrder,
    OddList,
    TooManyQuestions,
    OutOfLimits,
    NotSimplified,
    NotAbove,
    TooShort,
}

impl Refusal for OpenFault {
    ghost number_of = { spec.open_fault_number };

    fn number(self) -> u32 {
        match self {
            OpenFault::TooManyFields => 11,
            OpenFault::UnknownOrder => 18,
            OpenFault::OddList => 12,
            OpenFault::TooManyQuestions => 13,
            OpenFault::OutOfLimits => 14,
            OpenFault::NotSimplified => 15,
            OpenFault::NotAbove => 16,
            OpenFault::TooShort => 21,
        }
    }
}

impl From<UnknownOrder> for OpenFault {
    ghost from_gives = { λ _ f. f ≡ fault.UnknownOrder };

    fn from(_: UnknownOrder) -> OpenFault {
        OpenFault::UnknownOrder
    }
}
