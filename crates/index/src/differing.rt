// Whether entries differ.
ghost use Rattle.std.specs.Prelude.{◌≡◌};

use crate::chains::Index;
use crate::entry::Indexed;

// Whether no two of the first so many entries are equal.
pub fn entries_differ<E: Indexed>(words: &[u32], start: usize, entries: usize) -> bool
    requires { E.fits words.now start entries }
    ensures { result ≡ E.differ words.now entries }
{
    let mut index = Index::new();
    index.load::<E>(words, start, entries)
}
