// Whether words are all zero. Most words of a large store are unused, so they are compared several at once, and yet a word that is not zero is found soon.
ghost use Rattle.std.specs.Prelude.{◌≡◌};
ghost use Rattle.store.specs.Sound as spec;

// So many words are looked at before the test may stop.
const PART: usize = 64;

// By `fold` and `&`: no word decides whether the next is looked at, so that the compiled code compares several at once.
fn part_is_zero(part: &[u32]) -> bool
    ensures { result ≡ spec.all_zero part.now }
{
    part.iter().fold(true, |zero, word| zero & (*word == 0))
}

// Part by part, up to one that has a word that is not zero.
pub fn all_zero(words: &[u32]) -> bool
    ensures { result ≡ spec.all_zero words.now }
{
    let mut rest = words;
    while PART < rest.len() {
        let (part, after) = rest.split_at(PART);
        if !part_is_zero(part) {
            return false;
        }
        rest = after;
    }
    part_is_zero(rest)
}
