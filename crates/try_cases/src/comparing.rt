// What the evaluator says to an answer, at the end of the answer's line.
use evaluator::Refusal;
use std::fmt;

// By fields: the two answers are of crates that don't know each other, so neither == nor From is to be had.
pub fn is_same(found: sheet::Answer, expected: Result<u32, Refusal>) -> bool {
    let expected = evaluator::Answer::from(expected);
    found.number == expected.number && found.result == expected.result
}

// Nothing where the evaluator doesn't know the answer.
#[derive(Clone, Copy)]
pub enum Remark {
    Unknown,
    Agrees,
    Differs,
}

impl Remark {
    pub fn of(known: bool, same: bool) -> Remark {
        match (known, same) {
            (false, _) => Remark::Unknown,
            (true, true) => Remark::Agrees,
            (true, false) => Remark::Differs,
        }
    }
}

impl fmt::Display for Remark {
    fn fmt<W: fmt::Write>(&self, f: &mut fmt::Formatter<W>) -> fmt::Result {
        f.write_str(match self {
            Remark::Unknown => "",
            Remark::Agrees => " agrees",
            Remark::Differs => " differs",
        })
    }
}
