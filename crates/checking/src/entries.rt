// The entries of a table, read from its words.
ghost use Rattle.std.specs.Prelude.{◌≡◌};
ghost use Rattle.checking.specs.Needs.{HasEntry};
ghost use Rattle.normal_form.specs.Table as table;

use normal_form::{Entry, MOST_TABLE_ENTRIES};
use store::LEAVES;
use terms::Equation;

// The words of an entry: left term, right term, yes handle, no handle.
pub const ENTRY_LENGTH: usize = 4;

// How many entries a table has at most, and how many handles, those of the leaves among them.
pub const CAPACITY: usize = MOST_TABLE_ENTRIES as usize;

pub const HANDLES: usize = CAPACITY + LEAVES;

// A flag for each handle: the library has no heap, so there is a place for the most.
pub type Flags = [bool; HANDLES];

// The i-th entry. tables reads the four words of a row alike, for fields of other names.
pub fn entry_of(t: &[u32], i: usize) -> Entry
    requires { HasEntry t.now i }
    ensures { result ≡ table.entry t.now i }
{
    let at = ENTRY_LENGTH * i;
    Entry {
        left: t[at],
        right: t[at + 1],
        yes: t[at + 2],
        no: t[at + 3],
    }
}

// The equation that an entry asks.
pub fn equation_of(e: Entry) -> Equation
    ensures { result ≡ table.asks e }
{
    Equation::of_words(e.left, e.right)
}
