// What opening with a raw list refuses, and the documents' numbers for it.
ghost use Rattle.std.specs.Prelude.{◌≡◌};
ghost use Rattle.raw_lists.specs.RawOpened as spec;
ghost use Rattle.raw_lists.specs.declared.answer.RawFault.TheVariants as fault;

use terms::{Refusal, UnknownOrder};

// A rule that is broken. No equation is refused for its form or its place, so two of opening's faults are none here.
#[derive(Clone, Copy, Debug, PartialEq, Eq)]
pub enum RawFault {
    TooManyFields,
    UnknownOrder,
    OddList,
    TooManyEquations,
    OutOfLimits,
    TooManyQuestions,
    TooShort,
}

impl Refusal for RawFault {
    ghost number_of = { spec.raw_fault_number };

    fn number(self) -> u32 {
        match self {
            RawFault::TooManyFields => 11,
            RawFault::UnknownOrder => 18,
            RawFault::OddList => 12,
            RawFault::TooManyEquations => 17,
            RawFault::OutOfLimits => 14,
            RawFault::TooManyQuestions => 13,
            RawFault::TooShort => 21,
        }
    }
}

impl From<UnknownOrder> for RawFault {
    ghost from_gives = { λ _ f. f ≡ fault.UnknownOrder };

    fn from(_: UnknownOrder) -> RawFault {
        RawFault::UnknownOrder
    }
}

// 14 is of the raw terms, as they come: simplify takes no term beyond the limits.
impl From<terms::OutOfLimits> for RawFault {
    ghost from_gives = { λ _ f. f ≡ fault.OutOfLimits };

    fn from(_: terms::OutOfLimits) -> RawFault {
        RawFault::OutOfLimits
    }
}
