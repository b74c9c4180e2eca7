// A run so far: the chance of what is thrown next, what was compared, and the ledger of the store at hand.
use crate::chance::Chance;
use crate::raw_openings::RawTally;
use crate::sides::Sides;
use crate::tally::Tally;
use evaluator::{Answer, Words};

// How many stores of an order were generated, and how many of them have a list that is in no other order.
#[derive(Clone, Copy, Default)]
pub struct Generated {
    pub stores: u32,
    pub in_one: u32,
}

#[derive(Clone, Copy)]
pub struct Run {
    pub chance: Chance,
    pub compared: u64,
    pub differ: u64,
    // how often an answer's number was met
    pub met: Tally,
    // the stores that were generated, by their order
    pub stores: [Generated; 2],
    // how often reading a sheet with blanks had a result
    pub blanks: Tally,
    // the handles of the ledger
    pub ledger: Words<32>,
    pub sides: Sides,
    pub raw: RawTally,
}

impl Run {
    pub fn begun() -> Run {
        Run {
            chance: Chance::new(),
            compared: 0,
            differ: 0,
            met: Tally::default(),
            stores: [Generated::default(); 2],
            blanks: Tally::default(),
            ledger: Words::new(),
            sides: Sides::default(),
            raw: RawTally::default(),
        }
    }

    // So many comparisons, of which so many differ.
    pub fn count(&mut self, compared: u32, differ: usize) {
        self.compared = self.compared.saturating_add(u64::from(compared));
        self.differ = self.differ.saturating_add(differ as u64);
    }

    // One comparison.
    pub fn agree(&mut self, same: bool) {
        self.count(1, usize::from(!same));
    }

    // One store.
    pub fn count_store(&mut self, order: u32, is_in_one: bool) {
        if let Some(generated) = self.stores.get_mut(order as usize) {
            generated.stores = generated.stores.saturating_add(1);
            generated.in_one = generated.in_one.saturating_add(u32::from(is_in_one));
        }
    }

    // A number that was found against the one that was expected.
    pub fn expect_number<E: Into<Answer>>(&mut self, found: u32, expected: E) {
        let expected: Answer = expected.into();
        self.met.count(found);
        self.agree(found == expected.number);
    }

    // An answer that was found against the one that was expected, by fields: the two are of crates that don't know each other, so neither == nor From is
    // to be had.
    pub fn expect_answer<E: Into<Answer>>(&mut self, found: sheet::Answer, expected: E) {
        let expected: Answer = expected.into();
        self.expect_number(found.number, expected);
        self.agree(found.result == expected.result);
    }
}
