// Whether a store is sound: the test that every later operation makes first.
#![tactic(auto)]

ghost use Rattle.std.specs.Prelude.{◌≡◌, true, ◌≤◌, length};
ghost use Rattle.store.specs.Layout.{entries_start};
ghost use Rattle.store.specs.Sound as spec;
ghost use Rattle.terms.specs.Needs.{FitLimits};

mod entries;
mod zeros;

use crate::entries::Entries;
use store::{
    HEADING, entries_start, field_count, list_fault, question_count, room, store_order, used, wide,
};
use terms::{Limits, ListOrder, terms_within};

// Whether n, q and the list keep their rules, in the order that the store names, and the list lies within the words.
#[tactic(auto, unfolding(store::specs::Sound::heading_sound, store::specs::Sound::list_sound))]
fn heading_sound(limits: Limits, s: &[u32]) -> bool
    ensures { result ≡ spec.heading_sound limits s.now }
{
    if s.len() < HEADING {
        return false;
    }
    let n = field_count(s);
    if limits.terms.field.0 < n || limits.questions < question_count(s) {
        return false;
    }
    let end = entries_start(s);
    if s.len() < end {
        return false;
    }
    let Ok(order) = ListOrder::try_from(store_order(s)) else {
        return false;
    };
    list_fault(order, terms_within(limits, n), &s[HEADING..end]).is_ok()
}

// Whether a store is sound within limits, and then its list lies within its words. No type holds this fact: the functions that change a store would make it anew after each write.
pub fn is_sound(limits: Limits, s: &[u32]) -> bool
    requires { FitLimits limits }
    ensures sound { result ≡ spec.sound limits s.now }
    ensures list { result ≡ true → entries_start s.now ≤ length s.now }
{
    if !heading_sound(limits, s) {
        return false;
    }
    let count = wide(used(s));
    if room(limits, s) < count {
        return false;
    }
    let entries = Entries {
        store: s,
        start: entries_start(s),
        count,
    };
    entries.are_all_sound()
}
