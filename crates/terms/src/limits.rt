// The limits of terms and of stores, each in this place alone; the sizes of arrays derive from them.
ghost use Rattle.std.specs.Prelude.{◌≡◌};
ghost use Rattle.terms.specs.Limits as spec;

use crate::term::{Field, Steps};

// The fields of a sheet, the steps of a term, the questions of a list, and the entries of a store.
pub const MOST_FIELDS: u32 = 16;

const MOST_STEPS: u32 = 1023;

pub const MOST_QUESTIONS: u32 = 20;

pub const MOST_ENTRIES: u32 = 4096;

// The fields, questions and entries of the logger's store.
const LOGGER_FIELDS: u32 = 6;

const LOGGER_QUESTIONS: u32 = 8;

const LOGGER_ENTRIES: u32 = 200;

// The largest field number and the largest step count that a term may have.
#[derive(Clone, Copy, Debug, PartialEq, Eq)]
pub struct TermLimits {
    pub field: Field,
    pub steps: Steps,
}

// What a store may hold: the limits of its terms, and the largest numbers of questions and of entries. FitLimits is not its invariant: simplify and opening
// answer by any limits, and an invariant would ask more of whoever makes them.
#[derive(Clone, Copy, Debug, PartialEq, Eq)]
pub struct Limits {
    pub terms: TermLimits,
    pub questions: u32,
    pub entries: u32,
}

// The limits of every term that an operation is given.
pub fn term_limits() -> TermLimits
    ensures { result ≡ spec.term_limits }
{
    TermLimits {
        field: Field(MOST_FIELDS),
        steps: Steps(MOST_STEPS),
    }
}

// The limits of every store that an operation is lent.
pub fn limits_of_store() -> Limits
    ensures { result ≡ spec.store_limits }
{
    Limits {
        terms: term_limits(),
        questions: MOST_QUESTIONS,
        entries: MOST_ENTRIES,
    }
}

// The limits of every store that an operation of the logger's is lent.
pub fn limits_of_logger() -> Limits
    ensures { result ≡ spec.logger_limits }
{
    Limits {
        terms: TermLimits {
            field: Field(LOGGER_FIELDS),
            steps: Steps(MOST_STEPS),
        },
        questions: LOGGER_QUESTIONS,
        entries: LOGGER_ENTRIES,
    }
}

// The limits of a term in a store of n fields.
pub fn terms_within(limits: Limits, n: u32) -> TermLimits
    ensures { result ≡ spec.terms_within limits n }
{
    TermLimits {
        field: Field(n),
        steps: limits.terms.steps,
    }
}
