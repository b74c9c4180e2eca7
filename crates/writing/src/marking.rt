// The handles reachable from a handle, and their rows.
ghost use Rattle.std.specs.Prelude.{◌≡◌, false, ◌<◌, replicate};
ghost use Rattle.writing.specs.Needs as arrays;
ghost use Rattle.writing.specs.WriteBack as back;

use store::{LEAVES, entry_of, wide};
use terms::MOST_ENTRIES;

// How many handles a store has at most, those of the leaves among them.
const HANDLES: usize = MOST_ENTRIES as usize + LEAVES;

// Whether each handle is reachable, and the row of each handle. The library has no heap: there is room for every handle. Two arrays and no array of
// options: the pass down is the definition's over a list of flags, and rows are numbered once all marks stand. The pass stands again in checking for a
// table's entries: the definitions of the two are apart, and a trait would state both as laws.
#[derive(Clone, Copy)]
pub struct Reach {
    pub marks: [bool; HANDLES],
    pub rows: [u32; HANDLES],
}

impl Reach {
    // No handle is marked.
    pub fn none() -> Reach
        ensures { result.marks ≡ replicate arrays.most_handles false }
    {
        Reach {
            marks: [false; HANDLES],
            rows: [0; HANDLES],
        }
    }

    // The i-th entry, if it is marked, marks its two handles.
    #[tactic(auto, unfolding(crate::specs::WriteBack::mark_parts))]
    fn mark_parts(&mut self, s: &[u32], i: usize)
        requires { arrays.HasParts s.now i }
        ensures { self.new.marks ≡ back.mark_parts s.now i self.old.marks }
    {
        if self.marks[i + LEAVES] {
            let e = entry_of(s, i);
            self.marks[wide(e.yes)] = true;
            self.marks[wide(e.no)] = true;
        }
    }

    // Marks the handles reachable from a handle.
    pub fn mark_down(&mut self, s: &[u32], handle: usize)
        requires handled { arrays.Handled s.now handle }
        requires marks_value { self.old.marks ≡ replicate arrays.most_handles false }
        ensures { arrays.Marked s.now handle self.new.marks }
    {
        self.marks[handle] = true;
        for h in (LEAVES..handle + 1).rev() {
            self.mark_parts(s, h - LEAVES);
        }
    }

    // Gives each handle its row, and counts the entries that are marked.
    pub fn number_rows(&mut self, handle: usize) -> u32
        requires { handle < arrays.most_handles }
        ensures marks_kept { self.new.marks ≡ self.old.marks }
        ensures numbered { arrays.Numbered self.new.marks handle self.new.rows result }
    {
        self.rows[0] = 0;
        self.rows[1] = 1;
        let mut count = 0;
        for h in LEAVES..handle + 1 {
            self.rows[h] = 3 + 2 * count;
            count += u32::from(self.marks[h]);
        }
        count
    }
}
