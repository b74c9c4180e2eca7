// Generated rule tables over a store's list, most of them good.
use crate::chance::Chance;
use evaluator::{Equation, MOST_STEPS, Row, Store, Words};

// A table of up to sixteen rows.
pub type Table = Words<64>;

// The words of a row.
type RowWords = [u32; 4];

fn asking(left: u32, right: u32) -> RowWords {
    Row::Asks(Equation { left, right }).words()
}

// Steps to put on both sides of a question of a given gap: up to two, or any that the limit allows, or, now and then, just up to the limit or
// one beyond it.
fn throw_raise(chance: &mut Chance, gap: u32) -> u32 {
    let spare = MOST_STEPS.saturating_sub(gap);
    match chance.below(24) {
        0 => chance.from_on(spare, 2),
        1..=7 => chance.below(3),
        _ => chance.below(spare + 1),
    }
}

// A question as an equation: with the same steps more on both sides, and perhaps turned round.
fn throw_raised(chance: &mut Chance, question: Equation) -> Equation {
    let size = throw_raise(chance, question.gap()).saturating_mul(32);
    let raised = Equation {
        left: question.left.saturating_add(size),
        right: question.right.saturating_add(size),
    };
    if chance.once_in(2) {
        raised.turned_round()
    } else {
        raised
    }
}

fn throw_listed(chance: &mut Chance, store: Store<'_>) -> Equation {
    let k = chance.below(store.questions()) + 1;
    throw_raised(chance, store.question(k))
}

// Nearly a question of the list: with one step more on one side.
fn throw_missed(chance: &mut Chance, store: Store<'_>) -> Equation {
    let listed = throw_listed(chance, store);
    Equation {
        left: listed.left.saturating_add(32),
        right: listed.right,
    }
}

// An equation that may be on the list or not, of fields up to 4, which may be too large.
fn throw_equation(chance: &mut Chance) -> Equation {
    let left = chance.low_term(5);
    let right = chance.low_term(5);
    Equation { left, right }
}

// A row of a kind that may be unknown, with small columns.
fn throw_junk(chance: &mut Chance) -> RowWords {
    let kind = chance.below(8);
    let a = chance.below(4);
    let b = chance.below(4);
    let c = chance.below(3);
    [kind, a, b, c]
}

// Not, and, or if-then-else of lower rows.
fn throw_combined(chance: &mut Chance, r: u32) -> Row {
    let kind = chance.below(3);
    let [a, b, c] = chance.three_below(r);
    match kind {
        0 => Row::Not(a),
        1 => Row::And(a, b),
        _ => Row::IfThenElse(a, b, c),
    }
}

fn throw_leaf(chance: &mut Chance) -> Row {
    if chance.once_in(2) {
        Row::Never
    } else {
        Row::Always
    }
}

// A row that refers to no other: mostly a question of the list, if it has any.
fn throw_first(chance: &mut Chance, store: Store<'_>) -> Row {
    if store.questions() == 0 || chance.once_in(12) {
        throw_leaf(chance)
    } else {
        Row::Asks(throw_listed(chance, store))
    }
}

fn throw_good(chance: &mut Chance, store: Store<'_>, r: u32) -> Row {
    if r > 0 && chance.below(5) > 1 {
        throw_combined(chance, r)
    } else {
        throw_first(chance, store)
    }
}

fn throw_row(chance: &mut Chance, store: Store<'_>, r: u32) -> RowWords {
    match chance.below(80) {
        0 => throw_junk(chance),
        1 | 2 => Row::Asks(throw_equation(chance)).words(),
        // S1024(1) = 1 is beyond the limit, and S1023(1) = 1 is not
        3 => asking(32769, 1),
        4 => asking(32737, 1),
        5 => Row::Asks(throw_missed(chance, store)).words(),
        _ => throw_good(chance, store, r).words(),
    }
}

// A table; now and then of no words, or of a number that is no multiple of four.
pub fn throw_table(chance: &mut Chance, store: Store<'_>) -> Table {
    let mut table = Words::new();
    for r in 0..=chance.below(14) {
        let row = throw_row(chance, store, r);
        table.extend_from_slice(&row);
    }
    let length = table.len();
    table.set_len(match chance.below(60) {
        0 => 0,
        1 => length + 1,
        2 => length.saturating_sub(1),
        _ => length,
    });
    table
}

// Eight questions of the list, and after them choices among all rows before: such a rule has many entries.
fn throw_rich_row(chance: &mut Chance, store: Store<'_>, r: u32) -> Row {
    if r < 8 {
        return Row::Asks(throw_listed(chance, store));
    }
    let [a, b, c] = chance.three_below(r);
    Row::IfThenElse(a, b, c)
}

// A table of sixteen rows that is refused only where a term has too many steps.
pub fn throw_rich_table(chance: &mut Chance, store: Store<'_>) -> Table {
    let mut table = Words::new();
    for r in 0..16 {
        let row = throw_rich_row(chance, store, r);
        table.extend_from_slice(&row.words());
    }
    table
}
