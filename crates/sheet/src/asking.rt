// The operations that leave the store as it is, from C.
ghost use Rattle.std.specs.Prelude.{◌≡◌};
ghost use Rattle.examples.specs.Example.{example};
ghost use Rattle.reading.specs.Read.{read_sheet};
ghost use Rattle.sheet.specs.Answered.{answered};
ghost use Rattle.sheet.specs.Answers as spec;
ghost use Rattle.store.specs.Outcome.{outcome};
ghost use Rattle.terms.specs.Limits as limit;
ghost use Rattle.verdicts.specs.Verdict.{verdict};
ghost use Rattle.writing.specs.WriteBack.{write_back};

use crate::answers::Answer;
use examples::example_of;
use reading::{read, read_result};
use store::verdict_result;
use verdicts::verdict_of;
use writing::{write_back, written_result};

// Whether a handle is never, always or sometimes true.
#[unsafe(no_mangle)]
pub extern "C" fn sheet_verdict(store: &[u32], a: u32) -> Answer
    ensures { result ≡ spec.verdict_answer (verdict limit.store_limits store.now a) }
{
    let verdict = verdict_of(store, a);
    Answer::of(verdict, verdict_result(verdict))
}

// Writes the least sheet that satisfies a handle.
#[unsafe(no_mangle)]
pub extern "C" fn sheet_example(store: &[u32], a: u32, sheet: &mut [u16]) -> Answer
    ensures { outcome result sheet.new
        ≡ answered spec.example_answer (example limit.store_limits store.now a sheet.old) }
{
    Answer::of(example_of(store, a, sheet), 0)
}

// Whether no, every, or some but not every filling of a sheet satisfies a handle.
#[unsafe(no_mangle)]
pub extern "C" fn sheet_read(store: &[u32], a: u32, sheet: &[u16]) -> Answer
    ensures { result ≡ spec.read_answer (read_sheet limit.store_limits store.now a sheet.now) }
{
    let given = read(store, a, sheet);
    Answer::of(given, read_result(given))
}

// Writes a handle back as a rule table.
#[unsafe(no_mangle)]
pub extern "C" fn sheet_write_back(store: &[u32], a: u32, rule: &mut [u32]) -> Answer
    ensures { outcome result rule.new
        ≡ answered spec.written_answer (write_back limit.store_limits store.now a rule.old) }
{
    let written = write_back(store, a, rule);
    Answer::of(written, written_result(written))
}
