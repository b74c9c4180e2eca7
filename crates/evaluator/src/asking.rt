// What verdict, example, read and write back must answer; by meaning, where the grid covers the store's list, and of read where its fillings are few.
use crate::fillings::Fillings;
use crate::grid::Sheet;
use crate::layout::Store;
use crate::refusals::Refusal;
use crate::verdicts::Verdict;

pub fn expect_verdict(store: Store<'_>, handle: u32) -> Result<Verdict, Refusal> {
    store.check_handle(handle)?;
    let satisfied = store.first_sheet(handle, true).is_some();
    let broken = store.first_sheet(handle, false).is_some();
    Ok(Verdict::of(satisfied, broken))
}

// A slice for a sheet.
fn check_sheet(store: Store<'_>, handle: u32, length: usize) -> Result<(), Refusal> {
    store.check_handle(handle)?;
    if length != store.fields() as usize {
        return Err(Refusal::WrongLength);
    }
    Ok(())
}

// What a handle is over all fillings of a sheet. None where there are too many to try: the evaluator doesn't know it then.
pub fn expect_read(
    store: Store<'_>,
    handle: u32,
    sheet: &[u16],
) -> Option<Result<Verdict, Refusal>> {
    if let Err(refusal) = check_sheet(store, handle, sheet.len()) {
        return Some(Err(refusal));
    }
    let fillings = Fillings::of(store, sheet)?;
    Some(Ok(fillings.verdict(handle)))
}

// The least sheet that satisfies a handle, into a slice of so many counts.
pub fn expect_example(store: Store<'_>, handle: u32, length: usize) -> Result<Sheet, Refusal> {
    check_sheet(store, handle, length)?;
    let number = store.first_sheet(handle, true).ok_or(Refusal::Never)?;
    Ok(store.sheet(number))
}

// Whether these counts are what example must leave where all were 7: the sheet, and the counts as they were where it refuses.
pub fn is_example(expected: Result<Sheet, Refusal>, counts: &[u16]) -> bool {
    match expected {
        Ok(sheet) => sheet.starts_with(counts),
        Err(_) => counts.iter().all(|count| *count == 7),
    }
}

// The number of rows.
pub fn expect_written(store: Store<'_>, handle: u32, length: usize) -> Result<u32, Refusal> {
    store.check_handle(handle)?;
    let rows = store.rows(handle);
    if rows > 256 {
        return Err(Refusal::TooLong);
    }
    if length < 4 * rows {
        return Err(Refusal::WrongLength);
    }
    Ok(rows as u32)
}
