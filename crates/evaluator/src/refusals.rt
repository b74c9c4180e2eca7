// The refusals, and the documents' number of each.
ghost use Rattle.std.specs.Prelude.{◌<◌};

#[derive(Clone, Copy, Debug, PartialEq, Eq)]
pub enum Refusal {
    // of opening
    TooManyFields = 11,
    HalfQuestion = 12,
    TooManyQuestions = 13,
    ListedTerm = 14,
    NoQuestion = 15,
    OutOfOrder = 16,
    TooManyEquations = 17,
    NoOrder = 18,
    StoreTooShort = 21,
    // of a store, and of a slice for an answer
    NoStore = 22,
    WrongLength = 23,
    // of a rule table
    EmptyTable = 31,
    HalfRow = 32,
    TooManyRows = 33,
    BadRow = 34,
    RuleTerm = 35,
    NotListed = 36,
    // of a handle
    NoHandle = 41,
    // what a call can't do
    NoRoom = 51,
    Never = 52,
    TooLong = 53,
}

impl Refusal {
    // Never 0, which says that a call accepts.
    pub fn number(self) -> u32
        ensures { 0 < result }
    {
        self as u32
    }
}
