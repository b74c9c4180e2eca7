// The calls that may change the store: each is made, its answer printed with the store afterwards, and both compared with the evaluator's.
use crate::arguments::{Arguments, MOST_NUMBERS};
use crate::comparing::{Remark, is_same};
use crate::lending::Lent;
use crate::names::Name;
use crate::printing::{Answered, Listed};
use evaluator::{
    Call, Limits, Opening, Refusal, Side, Store, Words, expect_added, expect_opened,
    expect_raw_opened, first,
};
use sheet::{
    Answer, sheet_build, sheet_choose, sheet_join, sheet_logger_build, sheet_logger_open,
    sheet_negate, sheet_open, sheet_open_raw,
};
use std::io;

// What a call does to a store. A call that adds a diagram may have to pass the tests of another one first.
#[derive(Clone, Copy)]
enum Change<'a> {
    Open(Opening<'a>),
    OpenRaw(Opening<'a>),
    Add(Call<'a>, Option<Call<'a>>),
}

// A list stands after the number of fields and the order; a rule table stands by itself.
fn list_of(words: &[u32]) -> &[u32] {
    words.get(2..).unwrap_or(words)
}

// A change by the name of the call: opening takes the number of fields, the order and a list, build a table, and the others handles.
fn change_of<'a>(name: Name, given: &Arguments, words: &'a [u32]) -> Change<'a> {
    let [a, b, c] = [given.number(0), given.number(1), given.number(2)];
    let opening = Opening {
        n: a,
        order: b,
        list: list_of(words),
    };
    // The first three numbers have to be handles, also those that the call doesn't take, so that a stray one shows as a difference.
    let choice = Call::Choose(a, b, c);
    match name.letter {
        b'b' => Change::Add(Call::Build(words), None),
        b'n' => Change::Add(Call::Negate(a), Some(choice)),
        b'j' => Change::Add(Call::Join(a, b), Some(choice)),
        b'c' => Change::Add(choice, None),
        _ if name.raw => Change::OpenRaw(opening),
        _ => Change::Open(opening),
    }
}

// What the evaluator expects of a call, which passes the tests of another one first, if there is one.
fn expect_tested(
    limits: Limits,
    store: &[u32],
    call: Call<'_>,
    tested: Option<Call<'_>>,
    after: &mut [u32],
) -> Result<u32, Refusal> {
    if let Some(tested) = tested {
        let expected = expect_added(limits, Store(store), tested, after);
        if let Err(refusal @ (Refusal::NoStore | Refusal::NoHandle)) = expected {
            return Err(refusal);
        }
    }
    expect_added(limits, Store(store), call, after)
}

impl Change<'_> {
    // The institute's calls. As in try_rules: the evaluator may call none of these, and a crate for twelve lines is no plainer.
    fn perform(self, store: &mut [u32]) -> Answer {
        match self {
            Change::Open(o) => sheet_open(o.n, o.order, o.list, store),
            Change::OpenRaw(o) => sheet_open_raw(o.n, o.order, o.list, store),
            Change::Add(Call::Build(table), _) => sheet_build(store, table),
            Change::Add(Call::Negate(a), _) => sheet_negate(store, a),
            Change::Add(Call::Join(a, b), _) => sheet_join(store, a, b),
            Change::Add(Call::Choose(a, b, c), _) => sheet_choose(store, a, b, c),
        }
    }

    // The logger has opening and build: any other call of its own is a build of what the line gives.
    fn perform_logged(self, store: &mut [u32], words: &[u32]) -> Answer {
        match self {
            Change::Open(o) => sheet_logger_open(o.n, o.order, o.list, store),
            _ => sheet_logger_build(store, words),
        }
    }

    // What the evaluator expects within a side's limits, with a raw list by the institute alone; the store's words afterwards go into a slice that is
    // long enough.
    fn expect(self, side: Side, store: &[u32], after: &mut [u32]) -> Result<u32, Refusal> {
        match self {
            Change::Open(opening) => {
                expect_opened(side.limits(), opening, store, after).map(|_| 0)
            }
            Change::OpenRaw(opening) => expect_raw_opened(opening, store, after).map(|_| 0),
            Change::Add(call, tested) => expect_tested(side.limits(), store, call, tested, after),
        }
    }

    // The answer to opening depends on no word of the store.
    fn is_known(self, store: &[u32], expected: Result<u32, Refusal>) -> bool {
        match self {
            Change::Open(_) | Change::OpenRaw(_) => true,
            Change::Add(..) => Store(store).knows(expected),
        }
    }
}

// A call by its name, with the words that it gives.
fn make(
    rt: &impl Print,
    store: &mut [u32],
    name: Name,
    given: &Arguments,
    words: &[u32],
) -> io::Result<()> {
    let change = change_of(name, given, words);
    let mut after = [0; MOST_NUMBERS];
    let expected = change.expect(name.side, store, &mut after);
    let known = change.is_known(store, expected);
    let found = match name.side {
        Side::Institute => change.perform(store),
        Side::Logger => change.perform_logged(store, words),
    };
    let same = is_same(found, expected) && first(&after, store.len()) == &*store;
    let remark = Remark::of(known, same);
    print!(rt; "{}{}{remark}", Answered(found), Listed(&*store))
}

// The most rows that are made, one more than a table may have.
const MOST_MADE: u32 = 257;

const MADE_LENGTH: usize = 4 * MOST_MADE as usize;

// So many rows of always, as far as they are made.
fn always_rows(rows: u32) -> Words<MADE_LENGTH> {
    let mut table = Words::new();
    for _ in 0..rows.min(MOST_MADE) {
        table.extend_from_slice(&[1, 0, 0, 0]);
    }
    table
}

// A call with the numbers of its line, or without a bar with so many rows; nothing if the store has not as many words as it was lent with.
pub fn make_change(
    rt: &impl Print,
    lent: &mut Lent,
    name: Name,
    given: &Arguments,
) -> io::Result<()> {
    match lent.store_mut() {
        Some(store) if given.has_bar => make(rt, store, name, given, given.list()),
        Some(store) => make(
            rt,
            store,
            name,
            given,
            always_rows(given.number(0)).as_slice(),
        ),
        None => Ok(()),
    }
}
