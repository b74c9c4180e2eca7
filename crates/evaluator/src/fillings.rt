// The fillings of a sheet on which some fields were not counted, and what a handle is over all of them. Each such field, a blank, is tried at every count
// that is at most b × (K + 1) away from zero or from a count on the sheet, above it or below it, b being the number of blanks and K the largest gap of
// the list without its sign. No other filling has to be tried: put zero, the counts on the sheet and those in the blanks into ascending order, and cut
// where two neighbours are more than K + 1 apart. No question is true across a cut. So a part that has neither zero nor a count of the sheet can be
// lowered until it is K + 1 above the part below it, and every question keeps its answer. Then no blank is more than b steps of K + 1 away from zero
// or from a count on the sheet.
ghost use Rattle.std.specs.Prelude.{◌≡◌, ◌↔◌, IsNone, IfSome};

use crate::counts::Counts;
use crate::equations::Equations;
use crate::layout::Store;
use crate::limits::MOST_FIELDS;
use crate::verdicts::Verdict;
use crate::words::{Words, at};

// What stands on a sheet for a field that was not counted.
pub const BLANK: u16 = 65535;

// The count of a field by what stands on a sheet for it; none of a field that was not counted.
fn counted(word: u16) -> Option<u32>
    ensures blank { IsNone result ↔ (word ≡ 65535) }
    ensures count { IfSome result (λ count. count ≡ word) }
{
    match word {
        BLANK => None,
        _ => Some(u32::from(word)),
    }
}

// How many fields were not counted.
fn blanks(sheet: &[u16]) -> u32 {
    let blanks = sheet.iter().filter(|word| counted(**word).is_none());
    u32::try_from(blanks.count()).unwrap_or(u32::MAX)
}

// How far away from zero or from a count on the sheet a blank is tried.
fn margin_of(store: Store<'_>, sheet: &[u16]) -> u32 {
    let gap = Equations(store.list()).map(|question| question.gap()).max();
    let step = gap.unwrap_or(0).saturating_add(1);
    blanks(sheet).saturating_mul(step)
}

// The most fillings that are tried.
const MOST_FILLINGS: usize = 4096;

// One more, so that it shows where there are too many for a single blank.
const MOST_TRIED: usize = MOST_FILLINGS + 1;

// The counts that are tried in each blank, some of them more than once.
type Tried = Words<MOST_TRIED>;

// Adds the counts within a margin of one, as far as there is room.
fn add_around(tried: &mut Tried, count: u32, margin: u32) {
    for near in count.saturating_sub(margin)..=count.saturating_add(margin) {
        tried.push(near);
    }
}

fn tried_in(store: Store<'_>, sheet: &[u16]) -> Tried {
    let margin = margin_of(store, sheet);
    let mut tried = Words::new();
    add_around(&mut tried, 0, margin);
    for count in sheet.iter().filter_map(|word| counted(*word)) {
        add_around(&mut tried, count, margin);
    }
    tried
}

// The fillings of a sheet that is read from a store.
#[derive(Clone, Copy)]
pub struct Fillings<'a> {
    store: Store<'a>,
    sheet: &'a [u16],
    tried: Tried,
    // how many there are
    count: usize,
}

impl<'a> Fillings<'a> {
    // None where there are too many to try.
    pub fn of(store: Store<'a>, sheet: &'a [u16]) -> Option<Fillings<'a>> {
        let tried = tried_in(store, sheet);
        let count = tried.len().checked_pow(blanks(sheet))?;
        if count > MOST_FILLINGS {
            return None;
        }
        Some(Fillings {
            store,
            sheet,
            tried,
            count,
        })
    }

    // The filling with a number, whose digits say which of the counts tried stands in each blank. Zero is always tried, so the base is at least 1.
    fn filling(&self, number: usize) -> Counts {
        let tried = self.tried.as_slice();
        let base = tried.len().max(1);
        let mut counts = [0; MOST_FIELDS as usize];
        let mut digits = number;
        for (count, word) in counts.iter_mut().zip(self.sheet) {
            *count = match counted(*word) {
                Some(count) => count,
                None => {
                    let digit = digits % base;
                    digits /= base;
                    at(tried, digit)
                }
            };
        }
        counts
    }

    // Whether a handle has a truth under some filling.
    fn some_has(&self, handle: u32, truth: bool) -> bool {
        (0..self.count).any(|number| self.store.truth(handle, &self.filling(number)) == truth)
    }

    pub fn verdict(&self, handle: u32) -> Verdict {
        Verdict::of(self.some_has(handle, true), self.some_has(handle, false))
    }
}
