// The rows of a rule table.
ghost use Rattle.std.specs.Prelude.{◌≡◌, ◌<◌};
ghost use Rattle.tables.specs.Rows as spec;

// The words of a row, and the most rows of a table.
pub const ROW_LENGTH: usize = 4;

pub const MOST_ROWS: usize = 256;

// A kind and three columns, as the words stand: a table is lent from C, and 34 is for its unknown kinds, so a row keeps the number and `Kind::try_from` tells the kind.
#[derive(Clone, Copy, Debug, PartialEq, Eq)]
pub struct Row {
    pub kind: u32,
    pub a: u32,
    pub b: u32,
    pub c: u32,
}

// The i-th row of a table.
pub fn row_at(table: &[u32], i: usize) -> Row
    requires { i < spec.row_count table.now }
    ensures { result ≡ spec.row table.now i }
{
    let at = ROW_LENGTH * i;
    Row {
        kind: table[at],
        a: table[at + 1],
        b: table[at + 2],
        c: table[at + 3],
    }
}
