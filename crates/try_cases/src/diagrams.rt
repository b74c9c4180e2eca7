// The check of a table of entries. Nothing is lent to be written, so the line ends with number and result.
use crate::arguments::Arguments;
use crate::printing::Answered;
use evaluator::{copy, first};
use sheet::{Answer, sheet_check_normal_form};
use std::io;

// One entry more than a table may have.
const MOST_CHAINED: u32 = 4097;

const CHAIN_LENGTH: usize = 4 * MOST_CHAINED as usize;

// Of a chain of so many entries the i-th, counted from 0: it asks 1 = S^k(0), k being the number of the entries after it; yes is always, and no the entry
// before it, or never for the first one. The remainder keeps k within a word where more entries are asked for than there are.
fn chained(entries: u32, i: u32) -> [u32; 4] {
    let after = entries.saturating_sub(i).saturating_sub(1) % MOST_CHAINED;
    let before = if i == 0 { 0 } else { i.saturating_add(1) };
    [1, after * 32, 1, before]
}

// The check of a chain of so many entries, no more than MOST_CHAINED, of which the last is the root; the remainder keeps its handle in range.
fn check_chain(entries: u32) -> Answer {
    let mut table = [0; CHAIN_LENGTH];
    for i in 0..entries.min(MOST_CHAINED) {
        let at = 4 * i as usize;
        if let Some(room) = table.get_mut(at..at + 4) {
            copy(&chained(entries, i), room);
        }
    }
    let length = 4 * entries as usize;
    sheet_check_normal_form(first(&table, length), entries % 65536 + 1)
}

// A root, and the words of a table; or, without a bar, a chain of so many entries.
pub fn diagram(rt: &impl Print, given: &Arguments) -> io::Result<()> {
    let root = given.number(0);
    let found = if given.has_bar {
        sheet_check_normal_form(given.table(), root)
    } else {
        check_chain(root)
    };
    print!(rt; "{}", Answered(found))
}
