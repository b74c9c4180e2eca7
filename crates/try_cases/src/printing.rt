// Answers, words and counts, as a line of the output shows them.
use std::fmt;
use std::fmt::Display;

// Number and result, after a colon.
#[derive(Clone, Copy)]
pub struct Answered(pub sheet::Answer);

impl Display for Answered {
    fn fmt<W: fmt::Write>(&self, f: &mut fmt::Formatter<W>) -> fmt::Result {
        let number = self.0.number;
        let result = self.0.result;
        write!(f, ": {number} {result}")
    }
}

// Words or counts, after a bar.
#[derive(Clone, Copy)]
pub struct Listed<'a, T>(pub &'a [T]);

impl<T: Display> Display for Listed<'_, T> {
    fn fmt<W: fmt::Write>(&self, f: &mut fmt::Formatter<W>) -> fmt::Result {
        f.write_str(" |")?;
        for item in self.0 {
            write!(f, " {item}")?;
        }
        Ok(())
    }
}
