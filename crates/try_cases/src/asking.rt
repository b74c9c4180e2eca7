// The calls that leave the store as it is: each is made, and its answer printed and compared with the evaluator's. What simplify and write back
// leave is compared by the generated calls of `try_rules`.
use crate::comparing::{Remark, is_same};
use crate::printing::{Answered, Listed};
use evaluator::{
    Sheet, Store, expect_example, expect_read, expect_verdict, first, is_example, put,
};
use sheet::{sheet_example, sheet_read, sheet_simplify, sheet_verdict, sheet_write_back};
use std::io;

pub fn simplify(rt: &impl Print, left: u32, right: u32) -> io::Result<()> {
    let a = sheet_simplify(left, right);
    print!(rt;
        ": {} {} {} {} {}",
        a.number, a.result, a.left, a.right, a.gap
    )
}

pub fn verdict(rt: &impl Print, store: &[u32], handle: u32) -> io::Result<()> {
    let found = sheet_verdict(store, handle);
    let expected = expect_verdict(Store(store), handle).map(u32::from);
    let remark = Remark::of(Store(store).knows(expected), is_same(found, expected));
    print!(rt; "{}{remark}", Answered(found))
}

// The counts of a sheet, each by its lower 16 bits.
fn sheet_of(counts: &[u32]) -> Sheet {
    let mut sheet = [0; 16];
    for (place, count) in counts.iter().enumerate() {
        put(&mut sheet, place, (count % 65536) as u16);
    }
    sheet
}

// A sheet is read by the entries alone, whatever the list.
fn read_sheet(rt: &impl Print, store: &[u32], handle: u32, sheet: &[u16]) -> io::Result<()> {
    let found = sheet_read(store, handle, sheet);
    let remark = match expect_read(Store(store), handle, sheet) {
        Some(expected) => Remark::of(true, is_same(found, expected.map(u32::from))),
        None => Remark::Unknown,
    };
    print!(rt; "{}{remark}", Answered(found))
}

// A handle, and a sheet of at most sixteen counts. Without a handle nothing is read.
pub fn read(rt: &impl Print, store: &[u32], numbers: &[u32]) -> io::Result<()> {
    match numbers.split_first() {
        Some((handle, counts)) => {
            read_sheet(rt, store, *handle, first(&sheet_of(counts), counts.len()))
        }
        None => Ok(()),
    }
}

fn example_in(rt: &impl Print, store: &[u32], handle: u32, sheet: &mut [u16]) -> io::Result<()> {
    let expected = expect_example(Store(store), handle, sheet.len());
    let number = expected.map(|_| 0);
    let found = sheet_example(store, handle, sheet);
    let same = is_same(found, number) && is_example(expected, sheet);
    let remark = Remark::of(Store(store).knows(number), same);
    print!(rt; "{}{}{remark}", Answered(found), Listed(&*sheet))
}

// Into so many counts that are all 7, if they are no more than sixteen.
pub fn example(rt: &impl Print, store: &[u32], handle: u32, length: usize) -> io::Result<()> {
    let mut sheet = [7; 16];
    match sheet.get_mut(..length) {
        Some(sheet) => example_in(rt, store, handle, sheet),
        None => Ok(()),
    }
}

fn write_in(rt: &impl Print, store: &[u32], handle: u32, out: &mut [u32]) -> io::Result<()> {
    let found = sheet_write_back(store, handle, out);
    print!(rt; "{}{}", Answered(found), Listed(&*out))
}

// Into so many words that are all 7, if they are no more than 64.
pub fn write_back(rt: &impl Print, store: &[u32], handle: u32, length: usize) -> io::Result<()> {
    let mut out = [7; 64];
    match out.get_mut(..length) {
        Some(out) => write_in(rt, store, handle, out),
        None => Ok(()),
    }
}
