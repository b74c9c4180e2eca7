// The limits of a table. Steps and entries stand in this place alone; 16 is the sheet's number of fields.
ghost use Rattle.std.specs.Prelude.{◌≡◌};
ghost use Rattle.normal_form.specs.Limits as spec;

use terms::{Field, MOST_FIELDS, Steps, TermLimits};

const MOST_TABLE_STEPS: u32 = 4095;

pub const MOST_TABLE_ENTRIES: u32 = 4096;

// What a table may hold: the limits of its terms, and the largest number of entries. Not the Limits of a store, which has questions too.
#[derive(Clone, Copy, Debug, PartialEq, Eq)]
pub struct TableLimits {
    pub terms: TermLimits,
    pub entries: u32,
}

// The limits of every table that is checked.
pub fn limits_of_table() -> TableLimits
    ensures { result ≡ spec.table_limits }
{
    TableLimits {
        terms: TermLimits {
            field: Field(MOST_FIELDS),
            steps: Steps(MOST_TABLE_STEPS),
        },
        entries: MOST_TABLE_ENTRIES,
    }
}
