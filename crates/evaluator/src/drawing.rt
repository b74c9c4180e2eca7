// The finished diagram of a call's meaning, drawn from its truth at each sheet of the grid. No facts are gathered: what the sheets of the grid
// answer to the questions shows which answers go together.
ghost use Rattle.std.specs.Prelude.{◌+◌, ◌<◌, ◌^◌, length};

use crate::calls::Call;
use crate::counts::counts_of;
use crate::entries::{Entry, put_entry};
use crate::equations::Equations;
use crate::grid::MOST_DRAWN;
use crate::layout::{Store, USED_PLACE};
use crate::words::{first, put};

// How many ways there are to answer the questions of a list.
const WAYS: usize = 1 << MOST_DRAWN;

// The leaf of each way, question 1 being the highest digit; none where no sheet answers so. An array, since there is a place for each way.
type Ways = [Option<bool>; WAYS];

// What counts answer to the questions, as one number; of more questions than diagrams are drawn for, to the last ones.
fn way_of(store: Store<'_>, counts: &[u32]) -> usize
    ensures { result < 256 }
{
    let way = Equations(store.list()).fold(0, |way, question| {
        (way << 1) | usize::from(question.holds(counts))
    });
    way % WAYS
}

fn ways_of(store: Store<'_>, call: Call<'_>) -> Ways {
    let mut ways = [None; WAYS];
    for number in 0..store.sheets() {
        let counts = counts_of(&store.sheet(number));
        ways[way_of(store, &counts)] = Some(call.truth(store, &counts));
    }
    ways
}

// The handle of an entry with these words, written after the others unless it is there already.
fn add_entry(words: &mut [u32], entry: Entry) -> u32 {
    let used = Store(words).used();
    let found = Store(words).find(entry);
    if found.is_none() {
        put_entry(words, used, entry);
        put(words, USED_PLACE, used.saturating_add(1));
    }
    found.unwrap_or(used).saturating_add(2)
}

// The handle of the diagram that asks a question before two others. Where no sheet answers yes, or no, the question is forced.
fn ask(words: &mut [u32], question: u32, yes: Option<u32>, no: Option<u32>) -> Option<u32> {
    let (Some(yes), Some(no)) = (yes, no) else {
        return yes.or(no);
    };
    if yes == no {
        return Some(yes);
    }
    Some(add_entry(words, Entry { question, yes, no }))
}

// Adds the entries of the diagram of ways that begin alike, from question k on: the yes part's first, then the no part's, then its own.
// Gives its handle, if some sheet answers in these ways.
fn draw(words: &mut [u32], ways: &[Option<bool>], k: u32) -> Option<u32>
    requires { k + length ways.now < 2 ^ 32 }
{
    let half = ways.len() / 2;
    if half == 0 {
        return ways.first().copied().flatten().map(u32::from);
    }
    let yes = draw(words, &ways[half..], k + 1);
    let no = draw(words, &ways[..half], k + 1);
    ask(words, k, yes, no)
}

// Adds the diagram of a call to the words of the store.
pub fn draw_call(store: Store<'_>, call: Call<'_>, words: &mut [u32]) -> Option<u32> {
    let ways = ways_of(store, call);
    let count = 1 << store.questions().min(MOST_DRAWN);
    draw(words, first(&ways, count), 1)
}
