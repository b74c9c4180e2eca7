// Adding the diagram of a walk to a store.
ghost use Rattle.std.specs.Prelude.{◌≡◌, ◌+◌, ◌*◌, ◌≤◌, length};
ghost use Rattle.inserting.specs.Needs as spec;
ghost use Rattle.inserting.specs.SubjectMeaning.{subject_meaning};
ghost use Rattle.operations.specs.Operations.{add_meaning};
ghost use Rattle.store.specs.Layout as layout;
ghost use Rattle.store.specs.Outcome.{outcome};

use facts::no_facts;
use index::Index;
use operations::BuildFault;
use store::{Entry, clear_from, entries_start, question_count, set_used, used, wide};
use terms::Limits;
use walking::{Goal, Subject, walk};

// Takes the entries after the first so many away.
fn restore(store: &mut [u32], entries: u32)
    requires { layout.entries_start store.old + 3 * entries ≤ length store.old }
    ensures { store.new ≡ spec.restored store.old entries }
{
    let from = entries_start(store) + 3 * wide(entries);
    set_used(store, entries);
    clear_from(store, from);
}

// Walks over all questions with no facts, through an index over the entries.
fn walk_all(limits: Limits, store: &mut [u32], subject: Subject) -> Option<u32>
    requires { spec.CanWalkAll limits store.old subject }
    ensures { outcome result store.new ≡ spec.whole_walk limits store.old subject.entry }
{
    let mut index = Index::new();
    index.load::<Entry>(store, entries_start(store), wide(used(store)));
    let goal = Goal { limits, subject };
    let questions = question_count(store);
    walk(&goal, store, &mut index, &no_facts(), 1, questions)
}

// Adds the finished diagram of what a subject means, or leaves every word as it came where there is no room for it.
pub fn add(limits: Limits, store: &mut [u32], subject: Subject) -> Result<u32, BuildFault>
    requires { spec.CanAdd limits store.old subject }
    ensures { outcome result store.new
        ≡ add_meaning limits store.old (subject_meaning store.old subject.entry) }
{
    let entries = used(store);
    match walk_all(limits, store, subject) {
        Some(h) => Ok(h),
        None => {
            restore(store, entries);
            Err(BuildFault::NoRoom)
        }
    }
}
