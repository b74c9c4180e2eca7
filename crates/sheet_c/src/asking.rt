// The operations that leave the store as it is, from C.
ghost use Rattle.std.specs.Prelude.{◌≡◌};
ghost use Rattle.examples.specs.Example.{example};
ghost use Rattle.reading.specs.Read.{read_sheet};
ghost use Rattle.sheet.specs.Answered.{answered};
ghost use Rattle.sheet.specs.Answers as spec;
ghost use Rattle.store.specs.Outcome.{outcome};
ghost use Rattle.terms.specs.Limits as limit;
ghost use Rattle.verdicts.specs.Verdict.{verdict};
ghost use Rattle.writing.specs.WriteBack.{write_back};

use sheet::Answer;

// Whether a handle is never, always or sometimes true.
#[unsafe(no_mangle)]
pub extern "C" fn sheet_verdict(store: &[u32], a: u32) -> Answer
    ensures { result ≡ spec.verdict_answer (verdict limit.store_limits store.now a) }
{
    sheet::sheet_verdict(store, a)
}

// Writes the least sheet that satisfies a handle.
#[unsafe(no_mangle)]
pub extern "C" fn sheet_example(store: &[u32], a: u32, sheet: &mut [u16]) -> Answer
    ensures { outcome result sheet.new
        ≡ answered spec.example_answer (example limit.store_limits store.now a sheet.old) }
{
    sheet::sheet_example(store, a, sheet)
}

// Whether no, every, or some but not every filling of a sheet satisfies a handle.
#[unsafe(no_mangle)]
pub extern "C" fn sheet_read(store: &[u32], a: u32, sheet: &[u16]) -> Answer
    ensures { result ≡ spec.read_answer (read_sheet limit.store_limits store.now a sheet.now) }
{
    sheet::sheet_read(store, a, sheet)
}

// Writes a handle back as a rule table.
#[unsafe(no_mangle)]
pub extern "C" fn sheet_write_back(store: &[u32], a: u32, rule: &mut [u32]) -> Answer
    ensures { outcome result rule.new
        ≡ answered spec.written_answer (write_back limit.store_limits store.now a rule.old) }
{
    sheet::sheet_write_back(store, a, rule)
}
