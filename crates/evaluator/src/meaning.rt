// Meanings at all sheets of the grid.
use crate::calls::Call;
use crate::counts::counts_of;
use crate::layout::Store;

impl Store<'_> {
    // The meaning of a handle at a sheet of the grid.
    fn truth_at(self, handle: u32, number: u32) -> bool {
        self.truth(handle, &counts_of(&self.sheet(number)))
    }

    // The number of the first sheet at which a handle has a truth.
    pub(crate) fn first_sheet(self, handle: u32, truth: bool) -> Option<u32> {
        (0..self.sheets()).find(|number| self.truth_at(handle, *number) == truth)
    }

    // Whether two handles are alike in truth at all sheets.
    pub fn are_alike(self, a: u32, b: u32) -> bool {
        (0..self.sheets()).all(|number| self.truth_at(a, number) == self.truth_at(b, number))
    }

    // At how many sheets a handle differs from the meaning of a call.
    pub fn differences(self, call: Call<'_>, handle: u32) -> usize {
        (0..self.sheets())
            .filter(|number| {
                let counts = counts_of(&self.sheet(*number));
                self.truth(handle, &counts) != call.truth(self, &counts)
            })
            .count()
    }
}
