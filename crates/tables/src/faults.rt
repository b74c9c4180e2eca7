// What is wrong with a rule table.
ghost use Rattle.std.specs.Prelude.{◌≡◌, ◌<◌, ◌≤◌, ltb, length};
ghost use Rattle.store.specs.Layout as layout;
ghost use Rattle.tables.specs.Faults as spec;
ghost use Rattle.tables.specs.Rows as rows;
ghost use Rattle.tables.specs.TableFault.{checked};

use crate::answer::TableFault;
use crate::decoding::{Shape, decode};
use crate::kind::Kind;
use crate::listing::Listing;
use crate::row::{MOST_ROWS, ROW_LENGTH, Row, row_at};
use store::{field_count, wide};
use terms::{Limits, terms_within};

// Whether a word is the number of a row before the i-th.
fn lower(word: u32, i: usize) -> bool
    ensures { result ≡ ltb word i }
{
    wide(word) < i
}

// Whether the i-th row has a known kind, no words in unused columns, and references to lower rows only.
#[tactic(auto, unfolding(crate::specs::Faults::well_formed))]
fn well_formed(i: usize, r: Row) -> bool
    ensures { result ≡ spec.well_formed i r }
{
    let Ok(kind) = Kind::try_from(r.kind) else {
        return false;
    };
    match kind {
        Kind::Never | Kind::Always => r.a == 0 && r.b == 0 && r.c == 0,
        Kind::Equation => r.c == 0,
        Kind::Not => lower(r.a, i) && r.b == 0 && r.c == 0,
        Kind::And => lower(r.a, i) && lower(r.b, i) && r.c == 0,
        Kind::Choose => lower(r.a, i) && lower(r.b, i) && lower(r.c, i),
    }
}

// What is wrong with what a row stands for.
fn shape_fault(listing: Listing<'_>, shape: Shape) -> Result<(), TableFault>
    ensures { result ≡ checked (spec.shape_fault listing.entry.limits listing.entry.store.now shape) }
{
    match shape {
        Shape::Equation(e) => listing.equation_fault(e),
        Shape::Leaf(_) | Shape::Choice { .. } => Ok(()),
    }
}

// What is wrong with the i-th row.
#[tactic(auto, unfolding(crate::specs::Faults::row_fault))]
fn row_fault(listing: Listing<'_>, table: &[u32], i: usize) -> Result<(), TableFault>
    requires { i < rows.row_count table.now }
    ensures { result ≡ checked (spec.row_fault listing.entry.limits listing.entry.store.now i (rows.row table.now i)) }
{
    let r = row_at(table, i);
    if !well_formed(i, r) {
        return Err(TableFault::BadRow);
    }
    shape_fault(listing, decode(r))
}

// What is wrong with the first row that has a fault: a loop over rows with `?`, as list_fault's over questions. One function of a closure for both
// would need a law about each closure in place of the loop's invariant.
fn rows_fault(listing: Listing<'_>, table: &[u32]) -> Result<(), TableFault>
    ensures { result
        ≡ checked (spec.rows_fault (spec.row_fault listing.entry.limits listing.entry.store.now) table.now (rows.row_count table.now) 0) }
{
    for i in 0..table.len() / ROW_LENGTH {
        row_fault(listing, table, i)?;
    }
    Ok(())
}

// What is wrong with a table.
#[tactic(auto, unfolding(crate::specs::Faults::table_fault))]
pub fn table_fault(limits: Limits, s: &[u32], table: &[u32]) -> Result<(), TableFault>
    requires { layout.entries_start s.now ≤ length s.now }
    ensures { result ≡ checked (spec.table_fault limits s.now table.now) }
{
    if table.is_empty() {
        return Err(TableFault::NoWords);
    }
    if table.len() % ROW_LENGTH != 0 {
        return Err(TableFault::NotRows);
    }
    if MOST_ROWS < table.len() / ROW_LENGTH {
        return Err(TableFault::TooManyRows);
    }
    let limits = terms_within(limits, field_count(s));
    rows_fault(Listing { limits, store: s }, table)
}
