// Choices of counts, which may go beyond those that fit a sheet.
use crate::limits::MOST_FIELDS;

// A count for each field, that of field 1 first.
pub type Counts = [u32; MOST_FIELDS as usize];

// The counts of a sheet, and zeros behind them.
pub fn counts_of(sheet: &[u16]) -> Counts {
    let mut counts = [0; MOST_FIELDS as usize];
    for (count, written) in counts.iter_mut().zip(sheet) {
        *count = u32::from(*written);
    }
    counts
}
