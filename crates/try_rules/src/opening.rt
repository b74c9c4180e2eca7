// Opening, against the refusal that the list asks for and the words that it must leave.
use crate::comparing::MOST_WORDS;
use crate::run::Run;
use evaluator::{Opening, Side, Words, expect_opened};
use sheet::{Answer, sheet_logger_open, sheet_open};

fn open_on(side: Side, opening: Opening<'_>, store: &mut [u32]) -> Answer {
    let Opening { n, order, list } = opening;
    match side {
        Side::Institute => sheet_open(n, order, list, store),
        Side::Logger => sheet_logger_open(n, order, list, store),
    }
}

// At the institute or on the logger; gives the number of the answer, as sheet has it, which is C's.
pub fn try_opening(run: &mut Run, side: Side, opening: Opening<'_>, store: &mut [u32]) -> u32 {
    let mut words = Words::<MOST_WORDS>::filled(0, store.len());
    let expected = expect_opened(side.limits(), opening, store, words.as_mut_slice());
    let found = open_on(side, opening, store);
    run.expect_number(found.number, expected);
    run.agree(words.as_slice() == &*store);
    found.number
}
