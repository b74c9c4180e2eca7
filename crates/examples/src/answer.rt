// Why no example is written, and document 01's numbers for it. An example's result is always 0.
ghost use Rattle.std.specs.Prelude.{◌≡◌};
ghost use Rattle.examples.specs.Example as spec;

use terms::Refusal;

// Why no example is written.
#[derive(Clone, Copy, Debug, PartialEq, Eq)]
pub enum ExampleFault {
    NotSound,
    NoHandle,
    WrongLength,
    Nothing,
}

impl Refusal for ExampleFault {
    ghost number_of = { spec.example_fault_number };

    fn number(self) -> u32 {
        match self {
            ExampleFault::NotSound => 22,
            ExampleFault::NoHandle => 41,
            ExampleFault::WrongLength => 23,
            ExampleFault::Nothing => 52,
        }
    }
}
