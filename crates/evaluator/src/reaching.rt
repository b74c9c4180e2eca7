// The entries that are reachable from a handle, and how many rows they are written back in.
use crate::layout::Store;
use crate::limits::MOST_ENTRIES;
use crate::words::{at, put};

// How many handles a full store has.
const HANDLES: usize = MOST_ENTRIES as usize + 2;

impl Store<'_> {
    // The handles that are reached, from the last entry down: a reached entry reaches its two handles, which are smaller. An array, since a set would take
    // an allocator.
    fn reached(self, handle: u32) -> [bool; HANDLES] {
        let mut reached = [false; HANDLES];
        put(&mut reached, handle as usize, true);
        for i in (0..self.used()).rev() {
            if at(&reached, i as usize + 2) {
                let entry = self.entry(i);
                put(&mut reached, entry.yes as usize, true);
                put(&mut reached, entry.no as usize, true);
            }
        }
        reached
    }

    // The rows of a handle that is written back: one for never, two for always, and two more for each entry reached.
    pub(crate) fn rows(self, handle: u32) -> usize {
        if handle == 0 {
            return 1;
        }
        let reached = self.reached(handle);
        2 + 2 * reached[2..].iter().filter(|is| **is).count()
    }
}
