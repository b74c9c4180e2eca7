// Answers in the documents' numbers, laid out as C reads them.
ghost use Rattle.std.specs.Prelude.{◌≡◌};
ghost use Rattle.sheet.specs.Answers as spec;
ghost use Rattle.terms.specs.Refusal.{answer_number};

use operations::BuildFault;
use terms::{Refusal, answer_number};

// A number and a result.
#[repr(C)]
#[derive(Clone, Copy, Debug, PartialEq, Eq)]
pub struct Answer {
    pub number: u32,
    pub result: u32,
}

impl Answer {
    // The answer of any operation, by what it answers and the result that this gives.
    pub fn of<T: Copy, F: Refusal>(given: Result<T, F>, gives: u32) -> Answer
        ensures { result ≡ spec.answer_with (answer_number F.number_of given) gives }
    {
        Answer {
            number: answer_number(given),
            result: gives,
        }
    }
}

// The answer of build, negate, join and choose: the handle, or 0 beside a refusal.
pub fn built_answer(built: Result<u32, BuildFault>) -> Answer
    ensures { result ≡ spec.built_answer built }
{
    Answer::of(built, built.unwrap_or(0))
}
