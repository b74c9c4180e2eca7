// The operations that may change a store, from C.
ghost use Rattle.std.specs.Prelude.{◌≡◌};
ghost use Rattle.operations.specs.Operations as operation;
ghost use Rattle.raw_lists.specs.OpenRaw.{open_raw};
ghost use Rattle.sheet.specs.Answered.{answered};
ghost use Rattle.sheet.specs.Answers as spec;
ghost use Rattle.store.specs.Open.{open_store};
ghost use Rattle.store.specs.Outcome.{outcome};
ghost use Rattle.terms.specs.Limits as limit;

use crate::answers::{Answer, built_answer};
use building::{build, choose, join, negate};
use collecting::open_raw;
use store::open;

// Opens a store for n fields and a list of questions in the order that a number names.
#[unsafe(no_mangle)]
pub extern "C" fn sheet_open(n: u32, order: u32, list: &[u32], store: &mut [u32]) -> Answer
    ensures { outcome result store.new
        ≡ answered spec.opened_answer (open_store limit.store_limits n order list.now store.old) }
{
    Answer::of(open(n, order, list, store), 0)
}

// Opens a store for n fields and a list of equations as they come, sorted into the order that a number names.
#[unsafe(no_mangle)]
pub extern "C" fn sheet_open_raw(n: u32, order: u32, raw: &[u32], store: &mut [u32]) -> Answer
    ensures { outcome result store.new
        ≡ answered spec.raw_opened_answer (open_raw limit.store_limits n order raw.now store.old) }
{
    Answer::of(open_raw(n, order, raw, store), 0)
}

// Adds the diagram of a rule table.
#[unsafe(no_mangle)]
pub extern "C" fn sheet_build(store: &mut [u32], rule: &[u32]) -> Answer
    ensures { outcome result store.new
        ≡ answered spec.built_answer (operation.build limit.store_limits store.old rule.now) }
{
    built_answer(build(store, rule))
}

// Adds the diagram of not a.
#[unsafe(no_mangle)]
pub extern "C" fn sheet_negate(store: &mut [u32], a: u32) -> Answer
    ensures { outcome result store.new
        ≡ answered spec.built_answer (operation.negate limit.store_limits store.old a) }
{
    built_answer(negate(store, a))
}

// Adds the diagram of a and b.
#[unsafe(no_mangle)]
pub extern "C" fn sheet_join(store: &mut [u32], a: u32, b: u32) -> Answer
    ensures { outcome result store.new
        ≡ answered spec.built_answer (operation.join limit.store_limits store.old a b) }
{
    built_answer(join(store, a, b))
}

// Adds the diagram of if a then b else c.
#[unsafe(no_mangle)]
pub extern "C" fn sheet_choose(store: &mut [u32], a: u32, b: u32, c: u32) -> Answer
    ensures { outcome result store.new
        ≡ answered spec.built_answer (operation.choose limit.store_limits store.old a b c) }
{
    built_answer(choose(store, a, b, c))
}
