// Why a check refuses, and document 02's numbers for it.
ghost use Rattle.std.specs.Prelude.{◌≡◌};
ghost use Rattle.normal_form.specs.CheckAnswer as spec;

use terms::Refusal;

// Why a table is not accepted.
#[derive(Clone, Copy, Debug, PartialEq, Eq)]
pub enum CheckFault {
    BadShape,
    BadTerm,
    HandleNotLower,
    EqualEntries,
    NotReachable,
    RuleApplies,
}

impl Refusal for CheckFault {
    ghost number_of = { spec.check_fault_number };

    fn number(self) -> u32 {
        match self {
            CheckFault::BadShape => 81,
            CheckFault::BadTerm => 82,
            CheckFault::HandleNotLower => 83,
            CheckFault::EqualEntries => 84,
            CheckFault::NotReachable => 85,
            CheckFault::RuleApplies => 86,
        }
    }
}
