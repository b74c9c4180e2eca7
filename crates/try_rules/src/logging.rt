// The same lists and the same rules at the institute and on the logger, in stores of different lengths. While each build is accepted by both or by
// neither, both give the same answers and the same used words.
ghost use Rattle.std.specs.Prelude.{◌≤◌};

use crate::chance::Chance;
use crate::comparing::{MOST_WORDS, try_on};
use crate::lists::ShortList;
use crate::opening::try_opening;
use crate::raising::throw_logger_list;
use crate::rules::{Table, throw_rich_table, throw_table};
use crate::run::Run;
use evaluator::{Call, HEADING, Opening, Refusal, Side, Store, Words, first};
use sheet::Answer;

// The store at the institute and the one on the logger.
#[derive(Drop)]
struct Stores<'a> {
    institute: &'a mut [u32],
    logger: &'a mut [u32],
}

impl Stores<'_> {
    // Whether the two have the same heading, list and used entries.
    fn are_alike(&self) -> bool {
        let institute = Store(&*self.institute);
        let end = institute.entry_place(institute.used());
        self.logger.starts_with(first(institute.0, end))
    }
}

// The length of a store for a list: now and then too short, or with room for some thirty entries, or for more than 200.
fn throw_length(chance: &mut Chance, list: &ShortList) -> usize
    ensures { result ≤ 1024 }
{
    let way = chance.below(12);
    let more = chance.below(90) as usize;
    let spare = match way {
        0 => return more % 64,
        1..=3 => more,
        _ => 610 + 3 * more,
    };
    HEADING + list.words.len() + spare
}

// One of the two has refused, which can only be for want of room; from here on the stores may differ. Where the logger's store is long enough for 201
// entries, that many stand at the institute now.
fn compare_refusal(run: &mut Run, stores: &Stores<'_>, there: Answer, here: Answer) {
    let no_room = Refusal::NoRoom.number();
    run.agree(there.number == no_room || here.number == no_room);
    if here.number == no_room && Store(&*stores.logger).fits(201) {
        run.sides.count_full();
        run.agree(Store(&*stores.institute).used() > 200);
    }
}

// The same rule in both stores; gives whether both accepted or both refused.
fn build_both(run: &mut Run, stores: &mut Stores<'_>, table: &[u32]) -> bool {
    let call = Call::Build(table);
    let there = try_on(run, Side::Institute, &mut *stores.institute, call);
    let here = try_on(run, Side::Logger, &mut *stores.logger, call);
    let alike = (there.number == 0) == (here.number == 0);
    run.sides.count_build(there.number, here.number);
    if alike {
        run.agree(there.number == here.number);
        run.agree(there.result == here.result);
        run.agree(stores.are_alike());
    } else {
        compare_refusal(run, stores, there, here);
    }
    alike
}

// Mostly a table of many entries, so that the logger's 200 are reached.
fn throw_rule(chance: &mut Chance, store: Store<'_>) -> Table {
    if chance.once_in(4) {
        throw_table(chance, store)
    } else {
        throw_rich_table(chance, store)
    }
}

// Generated rules, until one of the two has refused alone.
fn build_all(run: &mut Run, stores: &mut Stores<'_>) {
    for _ in 0..120 {
        let table = throw_rule(&mut run.chance, Store(&*stores.institute));
        if !build_both(run, stores, table.as_slice()) {
            break;
        }
    }
}

// The same opening of both stores. Only if both accept it are there builds.
fn open_both(run: &mut Run, opening: Opening<'_>, stores: &mut Stores<'_>) {
    let there = try_opening(run, Side::Institute, opening, &mut *stores.institute);
    let here = try_opening(run, Side::Logger, opening, &mut *stores.logger);
    let accepted = there == 0 && here == 0;
    run.sides.count_opening(there, here);
    run.agree(!accepted || stores.are_alike());
    if accepted {
        build_all(run, stores);
    }
}

// One generated list with two stores.
fn logger_round(run: &mut Run) {
    let list = throw_logger_list(&mut run.chance);
    let there = throw_length(&mut run.chance, &list);
    let here = throw_length(&mut run.chance, &list);
    let mut institute = Words::<MOST_WORDS>::filled(7, there);
    let mut logger = Words::<MOST_WORDS>::filled(7, here);
    let mut stores = Stores {
        institute: institute.as_mut_slice(),
        logger: logger.as_mut_slice(),
    };
    open_both(run, list.opening(), &mut stores);
}

pub fn logger_rounds(run: &mut Run) {
    for _ in 0..300 {
        logger_round(run);
    }
}
