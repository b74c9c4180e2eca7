// A refusal has the number that the documents give it, and an accepted call the number 0.
ghost use Rattle.std.specs.Prelude.{◌≡◌, ℕ};
ghost use Rattle.terms.specs.Refusal as spec;

// Why an operation refuses what it is given.
pub trait Refusal: Copy {
    ghost number_of: { Self → ℕ };

    // The documents' number.
    fn number(self) -> u32
        ensures { result ≡ number_of self };
}

// The number of an answer, whatever it gives where it is no refusal.
pub fn answer_number<T: Copy, F: Refusal>(answer: Result<T, F>) -> u32
    ensures { result ≡ spec.answer_number F.number_of answer }
{
    match answer {
        Ok(_) => 0,
        Err(fault) => fault.number(),
    }
}
