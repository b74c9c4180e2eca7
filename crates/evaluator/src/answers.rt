// What a call answers: a number, which is 0 if it accepts, and a result. A number beside a result, as C gets an answer, only to be compared with one; the
// evaluator itself gives a Result.
ghost use Rattle.std.specs.Prelude.{◌≡◌, ◌<◌, IfOk, OnErr, OnOk};

use crate::refusals::Refusal;

#[derive(Clone, Copy, Debug, PartialEq, Eq)]
pub struct Answer {
    pub number: u32,
    pub result: u32,
}

impl From<Result<u32, Refusal>> for Answer {
    fn from(expected: Result<u32, Refusal>) -> Answer
        ensures accepted { OnOk expected (result.number ≡ 0) }
        ensures given { IfOk expected (λ given. result.result ≡ given) }
        ensures refused { OnErr expected (0 < result.number) }
        ensures without { OnErr expected (result.result ≡ 0) }
    {
        match expected {
            Ok(result) => Answer { number: 0, result },
            Err(refusal) => Answer {
                number: refusal.number(),
                result: 0,
            },
        }
    }
}

// An opening, which has no result.
impl From<Result<(), Refusal>> for Answer {
    fn from(expected: Result<(), Refusal>) -> Answer
        ensures accepted { OnOk expected (result.number ≡ 0) }
        ensures refused { OnErr expected (0 < result.number) }
        ensures without { result.result ≡ 0 }
    {
        Answer::from(expected.map(|_| 0))
    }
}
