// Why a handle is not written back, and document 01's numbers for the answers of writing back.
ghost use Rattle.std.specs.Prelude.{◌≡◌};
ghost use Rattle.writing.specs.WriteBack as spec;

use terms::Refusal;

// Why a handle is not written back.
#[derive(Clone, Copy, Debug, PartialEq, Eq)]
pub enum WriteFault {
    NotSound,
    NoHandle,
    TooManyRows,
    TooShort,
}

impl Refusal for WriteFault {
    ghost number_of = { spec.write_fault_number };

    fn number(self) -> u32 {
        match self {
            WriteFault::NotSound => 22,
            WriteFault::NoHandle => 41,
            WriteFault::TooManyRows => 53,
            WriteFault::TooShort => 23,
        }
    }
}

// The result of an answer; a function of its own, as in reading.
pub fn written_result(w: Result<u32, WriteFault>) -> u32
    ensures { result ≡ spec.written_result w }
{
    w.unwrap_or(0)
}
