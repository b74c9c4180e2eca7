// What the institute and the logger came to by the same calls, by the numbers of sheet's answers, which are C's: 0 accepts.
use crate::tally::Tally;

// How many calls of a kind both accepted, and how many both refused.
#[derive(Clone, Copy, Default)]
pub struct Agreed {
    pub accepted: u32,
    pub refused: u32,
}

impl Agreed {
    // A call by its two numbers.
    fn count(&mut self, there: u32, here: u32) {
        if there == 0 && here == 0 {
            self.accepted = self.accepted.saturating_add(1);
        } else if there != 0 && here != 0 {
            self.refused = self.refused.saturating_add(1);
        }
    }
}

#[derive(Clone, Copy, Default)]
pub struct Sides {
    pub openings: Agreed,
    pub builds: Agreed,
    // how often the institute alone, and the logger alone, refused with a number
    pub institute_alone: Tally,
    pub logger_alone: Tally,
    // builds that the logger alone refused, though its store was long enough for more than 200 entries
    pub full: u32,
}

impl Sides {
    // Two functions of two lines each: one would take an enum for the field.
    pub fn count_opening(&mut self, there: u32, here: u32) {
        self.openings.count(there, here);
        self.count_alone(there, here);
    }

    pub fn count_build(&mut self, there: u32, here: u32) {
        self.builds.count(there, here);
        self.count_alone(there, here);
    }

    // What one accepted and the other refused; the number of the one that accepted is 0.
    fn count_alone(&mut self, there: u32, here: u32) {
        if (there == 0) != (here == 0) {
            self.institute_alone.count(there);
            self.logger_alone.count(here);
        }
    }

    pub fn count_full(&mut self) {
        self.full = self.full.saturating_add(1);
    }
}
