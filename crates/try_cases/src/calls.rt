// The script: a line for each call, with its case, its name and its arguments; lines that lend a store or a slice for an answer; and remarks.
use crate::arguments::Arguments;
use crate::asking::{example, read, simplify, verdict, write_back};
use crate::changing::make_change;
use crate::diagrams::diagram;
use crate::lending::Lent;
use crate::names::Name;
use evaluator::at;
use std::io;

// A call by its name.
fn call(rt: &impl Print, lent: &mut Lent, name: Name, given: &Arguments) -> io::Result<()> {
    let handle = given.number(0);
    match name.letter {
        b'o' | b'b' | b'n' | b'j' | b'c' => make_change(rt, lent, name, given),
        b'v' => verdict(rt, lent.store(), handle),
        b'r' => read(rt, lent.store(), given.list()),
        b'e' => example(rt, lent.store(), handle, lent.out),
        b'w' => write_back(rt, lent.store(), handle, lent.out),
        b'd' => diagram(rt, given),
        _ => simplify(rt, handle, given.number(1)),
    }
}

// A line with a call: its case goes up to the first space, and its name follows.
fn run_call(rt: &impl Print, lent: &mut Lent, line: &[u8]) -> io::Result<()> {
    let space = line.iter().position(|byte| *byte == b' ');
    let rest = space.and_then(|place| line.get(place + 1..)).unwrap_or(&[]);
    rt.write_all(line)?;
    call(rt, lent, Name::of(rest), &Arguments::of(rest))?;
    rt.write_all(b"\n")
}

// A line by its first letter.
fn run_line(rt: &impl Print, lent: &mut Lent, line: &[u8]) -> io::Result<()> {
    match at(line, 0) {
        0 | b'#' => {}
        b's' => lent.lend_store(&Arguments::of(line)),
        b'o' => lent.lend_out(&Arguments::of(line)),
        _ => run_call(rt, lent, line)?,
    }
    Ok(())
}

pub fn run(rt: &impl Print, script: &[u8]) -> io::Result<()> {
    let mut lent = Lent::nothing();
    for line in script.split(|byte| *byte == b'\n') {
        run_line(rt, &mut lent, line)?;
    }
    Ok(())
}
