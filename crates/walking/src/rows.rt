// What the facts say of a rule table.
ghost use Rattle.std.specs.Prelude.{◌≡◌};
ghost use Rattle.facts.specs.Record as facts;
ghost use Rattle.tables.specs.Decoding.{LowerPart};
ghost use Rattle.tables.specs.Rows.{row};
ghost use Rattle.walking.specs.Needs.{said, AsksRow, AsksTable, HasPart};
ghost use Rattle.walking.specs.Value as spec;

use crate::truths::{choose_value, leaf_value};
use facts::{Decision, Facts, decision_of};
use store::wide;
use tables::{MOST_ROWS, Part, ROW_LENGTH, Shape, decode, row_at};

// What is said of a part, given what is said of the rows before it.
fn part_value(part: Part, before: &[Decision]) -> Decision
    requires { HasPart before.now part }
    ensures { result ≡ spec.part_value (said before.now) part }
{
    match part {
        Part::Leaf(b) => leaf_value(b),
        Part::Row(i) => before[wide(i)],
    }
}

// The value of the i-th row, given what is said of the rows before it.
#[tactic(auto, using(crate::proofs::RowValues::asks_ready))]
fn row_value(table: &[u32], i: usize, before: &[Decision], f: &Facts) -> Decision
    requires { AsksRow table.now i before.now f.now }
    ensures { result ≡ spec.row_value (facts.state f.now) (said before.now) (row table.now i) }
{
    match decode(row_at(table, i)) {
        Shape::Leaf(b) => leaf_value(b),
        Shape::Equation(e) => decision_of(*f, e),
        Shape::Choice {
            first,
            second,
            third,
        } => choose_value(
            part_value(first, before),
            part_value(second, before),
            part_value(third, before),
        ),
    }
}

// The value of a table: that of its last row. The library has no heap: there is a place for every row.
pub fn table_value(table: &[u32], f: &Facts) -> Decision
    requires { AsksTable table.now f.now }
    ensures { result ≡ spec.table_value table.now (facts.state f.now) }
{
    let mut values = [Decision::Never; MOST_ROWS];
    let rows = table.len() / ROW_LENGTH;
    for i in 0..rows {
        values[i] = row_value(table, i, &values, f);
    }
    values[rows - 1]
}
