// The numbers that a line of the script gives. A digit continues the number before it, any other byte ends it, and whether a bar stands among them says
// how they are taken. In the value itself, with no allocator: a line can't run out of memory, however long it is.
use evaluator::{at, first, put};

// The most numbers of a line, and the most words of a store.
pub const MOST_NUMBERS: usize = 136;

#[derive(Clone, Copy)]
pub struct Arguments {
    words: [u32; MOST_NUMBERS],
    count: usize,
    pub has_bar: bool,
    // whether the last number may go on
    is_open: bool,
}

// A number with one more digit, modulo 2^32. A digit's byte is its value above that of 0.
fn longer(number: u32, digit: u8) -> u32 {
    number
        .wrapping_mul(10)
        .wrapping_add(u32::from(digit % b'0'))
}

impl Arguments {
    pub fn of(line: &[u8]) -> Arguments {
        let mut given = Arguments {
            words: [0; MOST_NUMBERS],
            count: 0,
            has_bar: false,
            is_open: false,
        };
        for byte in line {
            given.take(*byte);
        }
        given.end_number();
        given
    }

    fn take(&mut self, byte: u8) {
        match byte {
            b'0'..=b'9' => self.add_digit(byte),
            b'|' => self.add_bar(),
            _ => self.end_number(),
        }
    }

    fn add_digit(&mut self, digit: u8) {
        let number = longer(at(&self.words, self.count), digit);
        put(&mut self.words, self.count, number);
        self.is_open = true;
    }

    // After so many numbers that no other has room they are counted anew, and are written over.
    fn end_number(&mut self) {
        self.count = self.count % MOST_NUMBERS + usize::from(self.is_open);
        self.is_open = false;
    }

    // A bar behind the last number that has room says nothing.
    fn add_bar(&mut self) {
        self.end_number();
        self.has_bar = self.count < MOST_NUMBERS;
    }

    // What stands at a place, 0 where no number was written.
    pub fn number(&self, place: usize) -> u32 {
        at(&self.words, place)
    }

    // The numbers, as many as are counted.
    pub fn list(&self) -> &[u32] {
        first(&self.words, self.count)
    }

    // The numbers after the first one; all the room for them if none is counted.
    pub fn table(&self) -> &[u32] {
        self.words.get(1..self.count).unwrap_or(&self.words)
    }

    // The numbers, and the room behind them.
    pub fn words(&self) -> [u32; MOST_NUMBERS] {
        self.words
    }
}
