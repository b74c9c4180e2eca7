// Why a verdict is not given, and document 01's numbers for it.
ghost use Rattle.std.specs.Prelude.{◌≡◌};
ghost use Rattle.verdicts.specs.Verdict as spec;

use terms::Refusal;

// Why a verdict is not given.
#[derive(Clone, Copy, Debug, PartialEq, Eq)]
pub enum VerdictFault {
    NotSound,
    NoHandle,
}

impl Refusal for VerdictFault {
    ghost number_of = { spec.verdict_fault_number };

    fn number(self) -> u32 {
        match self {
            VerdictFault::NotSound => 22,
            VerdictFault::NoHandle => 41,
        }
    }
}
