// What the calls are lent: the words of a store, and how long a slice for an answer is.
use crate::arguments::{Arguments, MOST_NUMBERS};
use evaluator::first;

#[derive(Clone, Copy)]
pub struct Lent {
    words: [u32; MOST_NUMBERS],
    length: usize,
    pub out: usize,
}

impl Lent {
    pub fn nothing() -> Lent {
        Lent {
            words: [0; MOST_NUMBERS],
            length: 0,
            out: 0,
        }
    }

    // A store: so many words that are all alike, or the words of a line with a bar.
    pub fn lend_store(&mut self, given: &Arguments) {
        if given.has_bar {
            self.words = given.words();
            self.length = given.list().len();
        } else {
            self.words = [given.number(1); MOST_NUMBERS];
            self.length = given.number(0) as usize;
        }
    }

    // A slice for an answer, whose words or counts are all 7.
    pub fn lend_out(&mut self, given: &Arguments) {
        self.out = given.number(0) as usize;
    }

    // The store, to be asked: all the words that there are, if it is longer.
    pub fn store(&self) -> &[u32] {
        first(&self.words, self.length)
    }

    // The store, to be changed, if there are so many words.
    pub fn store_mut(&mut self) -> Option<&mut [u32]> {
        let length = self.length;
        self.words.get_mut(..length)
    }
}
