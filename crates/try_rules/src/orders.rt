// Orders: document 01's and the older one, and words that are none.
use crate::chance::Chance;
use evaluator::at;

// Of words, since a list that was spoiled before may have a word that is no order.
pub fn other_order(order: u32) -> u32 {
    if order == 0 { 1 } else { 0 }
}

const UNKNOWN_COUNT: u32 = 8;

// Words that are no order, most of which would be one if only their last bits were looked at.
const UNKNOWN: [u32; UNKNOWN_COUNT as usize] = [
    2, 3, 256, 257, 65536, 2147483649, 4294967294, 4294967295,
];

pub fn throw_unknown(chance: &mut Chance) -> u32 {
    at(&UNKNOWN, chance.below(UNKNOWN_COUNT) as usize)
}
