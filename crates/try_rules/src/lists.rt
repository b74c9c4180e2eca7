// Generated lists of questions, in either order.
use crate::chance::Chance;
use evaluator::{Equation, Opening, Order, Words, field};

// A list's number of fields, its order, and its words, as far as there is room. The order's word, since words that are no order are opened with too.
#[derive(Clone, Copy)]
pub struct List<const N: usize> {
    pub n: u32,
    pub order: u32,
    pub words: Words<N>,
}

// Up to eight questions, or too many.
pub type ShortList = List<44>;

impl<const N: usize> List<N> {
    pub fn opening(&self) -> Opening<'_> {
        Opening {
            n: self.n,
            order: self.order,
            list: self.words.as_slice(),
        }
    }
}

// An equation of two fields: steps 0 to 3 are so many strides on the right, and 4 to 6 are one to three on the left.
fn equation_of(left: u32, right: u32, step: u32, stride: u32) -> Equation {
    let size = stride.saturating_mul(32);
    if step < 4 {
        Equation {
            left,
            right: right.saturating_add(size.saturating_mul(step)),
        }
    } else {
        Equation {
            left: left.saturating_add(size.saturating_mul(step - 3)),
            right,
        }
    }
}

// The equations of one left field in the older order: twelve with no steps on the left, then three with one stride there, and so on.
fn older_equation(left: u32, place: u32, stride: u32) -> Equation {
    if place < 12 {
        equation_of(left, place / 4, place % 4, stride)
    } else {
        equation_of(left, place % 3, place / 3, stride)
    }
}

// The c-th in an order of all equations of three fields with gaps of up to 3 strides. Some are no questions, as their right field is not smaller, or
// they have steps to the left of zero.
fn equation_at(c: u32, order: Order, stride: u32) -> Equation {
    let left = c / 21 % 3 + 1;
    let place = c % 21;
    match order {
        Order::Current => equation_of(left, place / 7, place % 7, stride),
        Order::Older => older_equation(left, place, stride),
    }
}

fn throw_order(chance: &mut Chance) -> Order {
    if chance.once_in(2) {
        Order::Current
    } else {
        Order::Older
    }
}

// The number of fields: mostly three, the fewest over which a list can be in one order and not in the other.
fn throw_fields(chance: &mut Chance) -> u32 {
    match chance.below(20) {
        0 => 0,
        1..=4 => 1,
        5..=7 => 2,
        _ => 3,
    }
}

// The least left field of a list: two times in three the last field, since the orders differ about questions of one left field alone.
fn throw_least(chance: &mut Chance, n: u32) -> u32 {
    if chance.once_in(3) { 0 } else { n }
}

// The steps of a stride: one, or up to 341, so that three strides go up to 1,023.
fn throw_stride(chance: &mut Chance, far: bool) -> u32 {
    if !far {
        return chance.from_on(1, 1);
    }
    match chance.below(4) {
        0 => chance.from_on(1, 1),
        1 => chance.from_on(341, 1),
        _ => chance.from_on(1, 341),
    }
}

// Whether that is a question over n fields from a least left field on. Gaps of 3 are for up to two fields: of two fields n × (K + 1) is then at
// most nine.
fn is_candidate(n: u32, least: u32, equation: Equation) -> bool {
    let left = field(equation.left);
    equation.is_question() && least <= left && left <= n && !(n == 3 && equation.gap() == 3)
}

// A list of up to eight questions, in either order. Its gaps are small, or go far: so they may in any list of one field, which the grid covers, and
// in others if that is asked for.
pub fn throw_list(chance: &mut Chance, far: bool) -> ShortList {
    let n = throw_fields(chance);
    let order = throw_order(chance);
    let least = throw_least(chance, n);
    let times = chance.below(4) + 1;
    let stride = throw_stride(chance, far || n == 1);
    let mut words = Words::new();
    for c in 0..63 {
        let equation = equation_at(c, order, stride);
        if words.len() < 16 && is_candidate(n, least, equation) && chance.once_in(times) {
            words.extend_from_slice(&equation.words());
        }
    }
    List {
        n,
        order: u32::from(order),
        words,
    }
}
