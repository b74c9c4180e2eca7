// What a run came to: the comparisons of each part, the generated stores, and at the end the refusals that were met.
use crate::raw_openings::RawTally;
use crate::run::Run;
use crate::sides::{Agreed, Sides};
use crate::tally::Tally;
use evaluator::first;
use std::io;

// The comparisons of a part; the two counts then start anew.
pub fn print_part(rt: &impl Print, run: &mut Run, name: &str) -> io::Result<()> {
    let compared = run.compared;
    let differ = run.differ;
    run.compared = 0;
    run.differ = 0;
    println!(rt; "{name}: compared {compared}, differ {differ}")
}

// What the raw lists brought about.
pub fn print_raw(rt: &impl Print, raw: RawTally) -> io::Result<()> {
    let RawTally {
        too_many,
        late,
        nothing,
    } = raw;
    println!(rt; "raw lists, refusal 17: {too_many}")?;
    println!(rt; "raw lists, refusal 14 before the 13 of more than 20 questions: {late}")?;
    println!(rt; "raw lists accepted of which 0 questions remain: {nothing}")
}

// The generated stores of each order.
pub fn print_stores(rt: &impl Print, run: &Run) -> io::Result<()> {
    for (order, generated) in run.stores.iter().enumerate() {
        let stores = generated.stores;
        let in_one = generated.in_one;
        println!(rt; "stores in order {order}: {stores}, with a list in no other order: {in_one}")?;
    }
    Ok(())
}

// How often sheets with blanks had each result.
pub fn print_blanks(rt: &impl Print, run: &Run) -> io::Result<()> {
    for (result, times) in first(run.blanks.times(), 3).iter().enumerate() {
        println!(rt; "sheets with blanks, result {result}: {times}")?;
    }
    Ok(())
}

// A line for each number that was met, but 0.
pub fn print_met(rt: &impl Print, text: &str, met: &Tally) -> io::Result<()> {
    for (number, times) in met.times().iter().enumerate() {
        if number > 0 && *times > 0 {
            println!(rt; "{text}refusal {number}: {times}")?;
        }
    }
    Ok(())
}

fn print_agreed(rt: &impl Print, what: &str, agreed: Agreed) -> io::Result<()> {
    let Agreed { accepted, refused } = agreed;
    println!(rt; "{what} accepted by both: {accepted}, refused by both: {refused}")
}

// The same openings and builds at the institute and on the logger; the refusals of one side, and the logger's for its limit and not for its store's
// length.
pub fn print_sides(rt: &impl Print, sides: &Sides) -> io::Result<()> {
    let full = sides.full;
    print_agreed(rt, "openings", sides.openings)?;
    print_agreed(rt, "builds", sides.builds)?;
    print_met(rt, "by the institute alone, ", &sides.institute_alone)?;
    print_met(rt, "by the logger alone, ", &sides.logger_alone)?;
    println!(rt; "by the logger alone, refusal 51 above 200 entries: {full}")
}
