// The deck logger's open and build, from C.
ghost use Rattle.std.specs.Prelude.{◌≡◌};
ghost use Rattle.operations.specs.Operations as operation;
ghost use Rattle.sheet.specs.Answered.{answered};
ghost use Rattle.sheet.specs.Answers as spec;
ghost use Rattle.store.specs.Open.{open_store};
ghost use Rattle.store.specs.Outcome.{outcome};
ghost use Rattle.terms.specs.Limits.{logger_limits};

use crate::answers::{Answer, built_answer};
use logger::{logger_build, logger_open};

// Opens a logger's store for n fields and a list of questions in the order that a number names.
#[unsafe(no_mangle)]
pub extern "C" fn sheet_logger_open(n: u32, order: u32, list: &[u32], store: &mut [u32]) -> Answer
    ensures { outcome result store.new
        ≡ answered spec.opened_answer (open_store logger_limits n order list.now store.old) }
{
    Answer::of(logger_open(n, order, list, store), 0)
}

// Adds the diagram of a rule table to a logger's store.
#[unsafe(no_mangle)]
pub extern "C" fn sheet_logger_build(store: &mut [u32], rule: &[u32]) -> Answer
    ensures { outcome result store.new
        ≡ answered spec.built_answer (operation.build logger_limits store.old rule.now) }
{
    built_answer(logger_build(store, rule))
}
