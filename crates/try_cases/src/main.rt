// Runs the documents' cases, which stand on standard input, and prints what each call answers: the line of the call, after a colon the answer's
// numbers, and whether the evaluator agrees.
#![tactic(auto)]

mod arguments;
mod asking;
mod calls;
mod changing;
mod comparing;
mod diagrams;
mod input;
mod lending;
mod names;
mod printing;

use std::io;

// The most bytes of a script; what stands after them is not read.
const MOST_BYTES: usize = 24576;

fn main(rt: HostRuntime) -> io::Result<()> {
    let mut text = [0u8; MOST_BYTES];
    let end = input::read_full(&mut rt.reader(), &mut text)?;
    calls::run(&rt, &text[..end])
}
