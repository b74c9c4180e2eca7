// What reading answers, why a sheet is not read, and the documents' numbers for both.
ghost use Rattle.std.specs.Prelude.{◌≡◌, cond};
ghost use Rattle.reading.specs.Read as spec;

use terms::Refusal;

// No filling of the sheet's blanks satisfies the handle, every filling does, or it depends on what was not counted.
#[derive(Clone, Copy, Debug, PartialEq, Eq)]
pub enum Reading {
    Fails,
    Satisfies,
    Depends,
}

impl From<Reading> for u32 {
    fn from(reading: Reading) -> u32
        ensures { result ≡ spec.reading_word reading }
    {
        match reading {
            Reading::Fails => 0,
            Reading::Satisfies => 1,
            Reading::Depends => 2,
        }
    }
}

// Of a sheet on which every field was counted.
impl From<bool> for Reading {
    fn from(satisfies: bool) -> Reading
        ensures { result ≡ cond satisfies Reading.Satisfies Reading.Fails }
    {
        if satisfies {
            Reading::Satisfies
        } else {
            Reading::Fails
        }
    }
}

// Why a sheet is not read.
#[derive(Clone, Copy, Debug, PartialEq, Eq)]
pub enum ReadFault {
    NotSound,
    NoHandle,
    WrongLength,
}

impl Refusal for ReadFault {
    ghost number_of = { spec.read_fault_number };

    fn number(self) -> u32 {
        match self {
            ReadFault::NotSound => 22,
            ReadFault::NoHandle => 41,
            ReadFault::WrongLength => 23,
        }
    }
}

// The result of an answer. A function for each operation that has a result, and not one over `Into`: the project wants each wrong definition refused by
// the promise of its own crate, and this is that of `read_result`.
pub fn read_result(r: Result<Reading, ReadFault>) -> u32
    ensures { result ≡ spec.read_result r }
{
    match r {
        Ok(reading) => u32::from(reading),
        Err(_) => 0,
    }
}
