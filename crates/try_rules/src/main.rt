// Runs generated lists of questions, rules and calls, stores that are not sound, and the limits, against a plain evaluator.
#![tactic(auto)]

mod asking;
mod calls;
mod chance;
mod changed;
mod comparing;
mod filling;
mod hostile;
mod ledger;
mod limits;
mod lists;
mod logger_limits;
mod logging;
mod opening;
mod orders;
mod printing;
mod raising;
mod raw_openings;
mod rounds;
mod rules;
mod run;
mod sides;
mod simplifying;
mod spoiling;
mod tally;
mod writing_back;

use crate::hostile::{try_all_broken, try_all_cut};
use crate::limits::try_limits;
use crate::logger_limits::try_logger_limits;
use crate::logging::logger_rounds;
use crate::printing::{print_blanks, print_met, print_part, print_raw, print_sides, print_stores};
use crate::raw_openings::raw_rounds;
use crate::rounds::{list_rounds, store_rounds};
use crate::run::Run;
use crate::simplifying::try_equations;
use std::io;

// What is generated: equations, lists, and calls.
fn run_generated(rt: &impl Print, run: &mut Run) -> io::Result<()> {
    try_equations(run);
    print_part(rt, run, "equations")?;
    list_rounds(run);
    print_part(rt, run, "lists")?;
    store_rounds(run);
    print_part(rt, run, "calls")?;
    print_stores(rt, run)?;
    print_blanks(rt, run)
}

// What is made by hand.
fn run_made(rt: &impl Print, run: &mut Run) -> io::Result<()> {
    try_all_broken(run);
    try_all_cut(run);
    print_part(rt, run, "hostile stores")?;
    try_limits(run);
    print_part(rt, run, "limits")
}

// The logger's open and build.
fn run_logger(rt: &impl Print, run: &mut Run) -> io::Result<()> {
    logger_rounds(run);
    print_part(rt, run, "logger")?;
    print_sides(rt, &run.sides)?;
    try_logger_limits(run);
    print_part(rt, run, "limits of the logger")
}

// Raw lists.
fn run_raw(rt: &impl Print, run: &mut Run) -> io::Result<()> {
    raw_rounds(run);
    print_part(rt, run, "raw lists")?;
    print_raw(rt, run.raw)
}

fn main(rt: HostRuntime) -> io::Result<()> {
    let mut run = Run::begun();
    run_generated(&rt, &mut run)?;
    run_made(&rt, &mut run)?;
    run_logger(&rt, &mut run)?;
    run_raw(&rt, &mut run)?;
    print_met(&rt, "", &run.met)
}
