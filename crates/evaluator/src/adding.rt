// What build, negate, join and choose must answer within limits, and the words that they must leave, where the grid covers the store's list.
use crate::calls::Call;
use crate::drawing::draw_call;
use crate::layout::Store;
use crate::limits::Limits;
use crate::refusals::Refusal;
use crate::words::copy;

// The handle that a call returns; the store's words afterwards go into a slice that is long enough. They are made anew where the diagram has no room.
pub fn expect_added(
    limits: Limits,
    store: Store<'_>,
    call: Call<'_>,
    words: &mut [u32],
) -> Result<u32, Refusal> {
    copy(store.0, words);
    call.check(limits, store)?;
    let handle = draw_call(store, call, words);
    if !store.has_room(limits, Store(words).used()) {
        copy(store.0, words);
        return Err(Refusal::NoRoom);
    }
    // Every grid has sheets, so there is a handle. No call answers u32::MAX, so it would differ.
    Ok(handle.unwrap_or(u32::MAX))
}
