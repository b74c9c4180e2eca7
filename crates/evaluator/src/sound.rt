// Whether words are a sound store within limits, part by part as documents 01 and 02 say it, and whether they have a handle.
use crate::layout::Store;
use crate::limits::Limits;
use crate::refusals::Refusal;

impl Store<'_> {
    // The number of fields, the number of questions, the order, the length and the list are such as opening accepts.
    fn has_sound_heading(self, limits: Limits) -> bool {
        self.fits(0) && self.opening().check(limits, self.0.len()).is_ok()
    }

    // A handle of an entry is smaller than its own, and the entry that it names has a larger question number.
    fn is_sound_part(self, i: u32, handle: u32) -> bool {
        u64::from(handle) < u64::from(i) + 2 && self.asked_by(handle) > self.entry(i).question
    }

    // A question number of the list, handles that differ, and no entry before it with the same words.
    fn is_sound_entry(self, i: u32) -> bool {
        let entry = self.entry(i);
        entry.question > 0
            && entry.question <= self.questions()
            && entry.yes != entry.no
            && self.is_sound_part(i, entry.yes)
            && self.is_sound_part(i, entry.no)
            && self.find(entry) == Some(i)
    }

    pub fn is_sound(self, limits: Limits) -> bool {
        let entries = self.used();
        if !self.has_sound_heading(limits) || !self.has_room(limits, entries) {
            return false;
        }
        let unused = self.0.get(self.entry_place(entries)..).unwrap_or(&[]);
        (0..entries).all(|i| self.is_sound_entry(i)) && unused.iter().all(|word| *word == 0)
    }

    pub(crate) fn has_handle(self, handle: u32) -> bool {
        u64::from(handle) < u64::from(self.used()) + 2
    }

    pub(crate) fn check_handles(self, handles: &[u32]) -> Result<(), Refusal> {
        if handles.iter().all(|handle| self.has_handle(*handle)) {
            return Ok(());
        }
        Err(Refusal::NoHandle)
    }

    // A store and one of its handles, at the institute: the logger's operations take no handles.
    pub(crate) fn check_handle(self, handle: u32) -> Result<(), Refusal> {
        if !self.is_sound(Limits::INSTITUTE) {
            return Err(Refusal::NoStore);
        }
        self.check_handles(&[handle])
    }
}
