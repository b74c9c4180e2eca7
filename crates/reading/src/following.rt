// The way that a sheet on which every field was counted takes down from a handle.
ghost use Rattle.std.specs.Prelude.{◌≡◌, ◌≤◌, length};
ghost use Rattle.reading.specs.Needs.{Counted, CanValue, CanAsk, Readable};
ghost use Rattle.reading.specs.Sheet.{sheet_counts};
ghost use Rattle.store.specs.Layout as layout;
ghost use Rattle.store.specs.Meaning as meaning;
ghost use Rattle.terms.specs.Meaning.{value, truth};

use store::{LEAVES, entry_of, question_at, wide};
use terms::{Equation, Field, Term};

// A field's count.
#[tactic(auto, unfolding(terms::specs::Meaning::count))]
fn count_of(sheet: &[u16], f: Field) -> u32
    requires { f.0 ≤ length sheet.now }
    ensures { Counted sheet.now f result }
{
    if f.0 == 0 {
        return 0;
    }
    u32::from(sheet[wide(f.0 - 1)])
}

// The value of a term.
fn value_of(sheet: &[u16], t: Term) -> u32
    requires { CanValue sheet.now t }
    ensures { result ≡ value (sheet_counts sheet.now) t }
{
    count_of(sheet, t.field) + t.steps.0
}

// Whether a question is true.
fn truth_of(sheet: &[u16], q: Equation) -> bool
    requires { CanAsk sheet.now q }
    ensures { result ≡ truth (sheet_counts sheet.now) q }
{
    value_of(sheet, q.left) == value_of(sheet, q.right)
}

// The handle that follows an entry's.
#[tactic(auto, unfolding(store::specs::Meaning::next))]
fn next_of(s: &[u32], handle: usize, sheet: &[u16]) -> usize
    requires readable { Readable s.now handle sheet.now }
    requires leaves_le_handle { layout.leaves ≤ handle }
    ensures { result ≡ meaning.next s.now (sheet_counts sheet.now) handle }
{
    let e = entry_of(s, handle - LEAVES);
    if truth_of(sheet, question_at(s, wide(e.question))) {
        return wide(e.yes);
    }
    wide(e.no)
}

// Whether a sheet satisfies a handle of a sound store.
pub fn read_sound(s: &[u32], handle: u32, sheet: &[u16]) -> bool
    requires { Readable s.now handle sheet.now }
    ensures { result ≡ meaning.meaning s.now handle (sheet_counts sheet.now) }
{
    let mut h = wide(handle);
    // The way down follows handles, so there is no index to go over.
    while LEAVES <= h {
        h = next_of(s, h, sheet);
    }
    h == 1
}
