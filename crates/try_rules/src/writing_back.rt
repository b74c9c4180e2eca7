// Write back, against the evaluator, and built again.
use crate::run::Run;
use evaluator::{Call, Limits, Store, Words, check_table, expect_written, first};
use sheet::{Answer, sheet_build, sheet_write_back};

// A handle of a store that was written back into words that were all 7: the answer, and the words afterwards, with more of them behind.
#[derive(Clone, Copy)]
pub struct Written<'a> {
    store: Store<'a>,
    handle: u32,
    pub answer: Answer,
    words: Words<1024>,
}

impl Written<'_> {
    // The rows that were written.
    fn table(&self) -> &[u32] {
        first(self.words.room(), 4 * self.answer.result as usize)
    }

    // Whether the words after the rows are all 7.
    fn is_kept(&self) -> bool {
        let end = 4 * self.answer.result as usize;
        self.words.room().iter().skip(end).all(|word| *word == 7)
    }

    // The rows written back mean what the handle means.
    fn compare_rows(&self, run: &mut Run) {
        let differ = self
            .store
            .differences(Call::Build(self.table()), self.handle);
        run.count(self.store.sheets(), differ);
    }

    // Number and rows, the words after the rows, and the meaning of the rows.
    pub fn compare(&self, run: &mut Run) {
        let expected = expect_written(self.store, self.handle, self.words.len());
        let is_kept = self.is_kept();
        run.expect_number(self.answer.number, expected);
        match expected {
            Ok(rows) => {
                run.agree(self.answer.result == rows);
                run.agree(is_kept);
                self.compare_rows(run);
            }
            Err(_) => run.agree(self.answer.result == 0 && is_kept),
        }
    }

    // Builds the written rule again, on a copy of the store: the handle is the same, and no word changes.
    fn build_again(&self, run: &mut Run) {
        let mut words = Words::<512>::new();
        words.extend_from_slice(self.store.0);
        run.agree(check_table(Limits::INSTITUTE, self.store, self.table()).is_ok());
        let found = sheet_build(words.as_mut_slice(), self.table());
        run.expect_answer(found, Ok(self.handle));
        run.agree(words.as_slice() == self.store.0);
    }
}

// Writes a handle back into so many words, at most 1,024.
pub fn write_back(store: Store<'_>, handle: u32, length: usize) -> Written<'_> {
    let mut words = Words::filled(7, length);
    let answer = sheet_write_back(store.0, handle, words.as_mut_slice());
    Written {
        store,
        handle,
        answer,
        words,
    }
}

// Writes a handle back that a call returned, and builds it again.
fn write_thrown(run: &mut Run, store: Store<'_>, handle: u32) {
    let length = (run.chance.below(1500) as usize).min(1024);
    let written = write_back(store, handle, length);
    written.compare(run);
    if written.answer.result > 0 {
        written.build_again(run);
    }
}

// Each handle of the ledger, into a slice of any length.
pub fn write_handles(run: &mut Run, store: Store<'_>) {
    let ledger = run.ledger;
    for handle in ledger.as_slice() {
        write_thrown(run, store, *handle);
    }
}
