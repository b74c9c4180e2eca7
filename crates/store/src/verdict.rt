// The verdict of a diagram, and its number.
ghost use Rattle.std.specs.Prelude.{◌≡◌};
ghost use Rattle.store.specs.VerdictWord.{verdict_word, result_of_verdict};

// No sheet satisfies the diagram, every sheet does, or some do.
#[derive(Clone, Copy, Debug, PartialEq, Eq)]
pub enum Verdict {
    Never,
    Always,
    Sometimes,
}

impl From<Verdict> for u32 {
    fn from(verdict: Verdict) -> u32
        ensures { result ≡ verdict_word verdict }
    {
        match verdict {
            Verdict::Never => 0,
            Verdict::Always => 1,
            Verdict::Sometimes => 2,
        }
    }
}

// The result of an answer with a verdict, 0 beside a refusal; a function of its own, as in reading.
pub fn verdict_result<F: Copy>(answer: Result<Verdict, F>) -> u32
    ensures { result ≡ result_of_verdict answer }
{
    match answer {
        Ok(verdict) => u32::from(verdict),
        Err(_) => 0,
    }
}
