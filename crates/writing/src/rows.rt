// Writing the rows of a table.
ghost use Rattle.std.specs.Prelude.{◌≡◌, [], ◌∷◌, ◌+◌, ◌*◌, ◌≤◌, length};
ghost use Rattle.writing.specs.Needs as arrays;
ghost use Rattle.tables.specs.Kinds.{kind_number};
ghost use Rattle.tables.specs.Rows as table;
ghost use Rattle.writing.specs.WriteBack as back;

use crate::marking::Reach;
use store::{LEAVES, entry_of, left_word, right_word, wide};
use tables::{Kind, ROW_LENGTH};

// Writes the row with a number.
fn put_row(out: &mut [u32], row: usize, kind: Kind, a: u32, b: u32, c: u32)
    requires { table.row_length * row + table.row_length ≤ length out.old }
    ensures { out.new
        ≡ arrays.put out.old (table.row_length * row) (kind_number kind ∷ a ∷ b ∷ c ∷ []) }
{
    let at = ROW_LENGTH * row;
    out[at..at + ROW_LENGTH].copy_from_slice(&[u32::from(kind), a, b, c]);
}

// Writes the two rows of the i-th entry, if it is marked.
fn write_entry(s: &[u32], reach: &Reach, i: usize, out: &mut [u32])
    requires { arrays.CanWrite s.now reach.now i (length out.old) }
    ensures { out.new ≡ arrays.entry_put s.now reach.now i out.old }
{
    if reach.marks[i + LEAVES] {
        let row = reach.rows[i + LEAVES];
        let e = entry_of(s, i);
        let k = wide(e.question);
        put_row(
            out,
            wide(row) - 1,
            Kind::Equation,
            left_word(s, k),
            right_word(s, k),
            0,
        );
        let yes = reach.rows[wide(e.yes)];
        let no = reach.rows[wide(e.no)];
        put_row(out, wide(row), Kind::Choose, row - 1, yes, no);
    }
}

// Writes the rows of the entries that are marked, ascending.
fn write_entries(s: &[u32], reach: &Reach, handle: usize, out: &mut [u32])
    requires writable { arrays.Writable s.now handle reach.now (length out.old) }
    requires le_handle { 1 ≤ handle }
    ensures { out.new ≡ arrays.put out.old arrays.after_leaves (arrays.reachable_rows s.now handle) }
{
    for h in LEAVES..handle + 1 {
        write_entry(s, reach, h - LEAVES, out);
    }
}

// Writes the rows of a handle.
pub fn write_rows(s: &[u32], reach: &Reach, handle: usize, out: &mut [u32])
    requires { arrays.Writable s.now handle reach.now (length out.old) }
    ensures { out.new ≡ arrays.put out.old 0 (back.written_rows s.now handle) }
{
    put_row(out, 0, Kind::Never, 0, 0, 0);
    if handle == 0 {
        return;
    }
    put_row(out, 1, Kind::Always, 0, 0, 0);
    write_entries(s, reach, handle, out);
}
