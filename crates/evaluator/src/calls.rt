// A call of build, negate, join or choose: its refusal, and the meaning that it is to add.
use crate::layout::Store;
use crate::limits::Limits;
use crate::refusals::Refusal;
use crate::rules::check_table;
use crate::truth::rule_truth;

// A call with its rule table or its handles.
#[derive(Clone, Copy)]
pub enum Call<'a> {
    Build(&'a [u32]),
    Negate(u32),
    Join(u32, u32),
    Choose(u32, u32, u32),
}

impl Call<'_> {
    // The store, and then the rule table or the handles.
    pub(crate) fn check(self, limits: Limits, store: Store<'_>) -> Result<(), Refusal> {
        if !store.is_sound(limits) {
            return Err(Refusal::NoStore);
        }
        match self {
            Call::Build(table) => check_table(limits, store, table),
            Call::Negate(a) => store.check_handles(&[a]),
            Call::Join(a, b) => store.check_handles(&[a, b]),
            Call::Choose(a, b, c) => store.check_handles(&[a, b, c]),
        }
    }

    // The meaning of a call under a choice of counts.
    pub fn truth(self, store: Store<'_>, counts: &[u32]) -> bool {
        match self {
            Call::Build(table) => rule_truth(table, counts),
            Call::Negate(a) => !store.truth(a, counts),
            Call::Join(a, b) => store.truth(a, counts) && store.truth(b, counts),
            Call::Choose(a, b, c) => {
                let chosen = if store.truth(a, counts) { b } else { c };
                store.truth(chosen, counts)
            }
        }
    }
}
