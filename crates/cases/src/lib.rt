// The probe's cases that hand in a file, check, day, total and find, a block on its own, a room with a file that is edited, or a store. No contract can say what is read,
// so those that read are proved safe, and have none; what they answer is put together by `calls`, `edit_calls` and `store_calls`.
#![tactic(auto)]

pub mod rooms;
pub mod stores;

ghost use Rattle.std.specs.Prelude.{◌≡◌, ◌-◌, length, get_or};

use calls::{PLACES, files};
use edit_calls::find;
use input::Going;
use input::bytes::{Cursor, fill_line};
use input::numbers::head;
use machine::Machine;
use page::texts::part;

// The last of some numbers, 0 where there is none.
fn last(numbers: &[u64]) -> u64
    ensures { result ≡ get_or numbers.now (length numbers.now - 1) 0 }
{
    numbers.last().copied().unwrap_or(0)
}

// The rest of the case's word, its numbers, and the file, whose length is the last of them.
fn file_in(
    rt: &impl Machine,
    buf: &mut [u8],
    c: Cursor,
    word: &[u8],
    numbers: &mut [u64],
    file: &mut [u8],
) -> Option<Cursor> {
    let after = head(rt, buf, c, word, numbers)?;
    fill_line(rt, buf, after, last(numbers) as usize, file)
}

pub fn check_case(
    rt: &impl Machine,
    buf: &mut [u8],
    c: Cursor,
    file: &mut [u8],
    page: &mut [u8],
    at: usize,
) -> Option<Going> {
    let mut numbers = [0u64; 1];
    let after = file_in(rt, buf, c, b"heck ", &mut numbers, file)?;
    let n = numbers[0] as usize;
    Some(Going::On(after, files::checked(part(file, 0, n), page, at)))
}

pub fn total_case(
    rt: &impl Machine,
    buf: &mut [u8],
    c: Cursor,
    file: &mut [u8],
    page: &mut [u8],
    at: usize,
) -> Option<Going> {
    let mut numbers = [0u64; 2];
    let after = file_in(rt, buf, c, b"otal ", &mut numbers, file)?;
    let k = numbers[0] as usize;
    let n = numbers[1] as usize;
    Some(Going::On(after, files::totalled(part(file, 0, n), k, page, at)))
}

pub fn find_case(
    rt: &impl Machine,
    buf: &mut [u8],
    c: Cursor,
    file: &mut [u8],
    page: &mut [u8],
    at: usize,
) -> Option<Going> {
    let mut numbers = [0u64; 2];
    let after = file_in(rt, buf, c, b"ind ", &mut numbers, file)?;
    let k = numbers[0] as usize;
    let n = numbers[1] as usize;
    Some(Going::On(after, find(part(file, 0, n), k, page, at)))
}

pub fn block_case(
    rt: &impl Machine,
    buf: &mut [u8],
    c: Cursor,
    file: &mut [u8],
    page: &mut [u8],
    at: usize,
) -> Option<Going> {
    let mut numbers = [0u64; 3];
    let after = file_in(rt, buf, c, b"ock ", &mut numbers, file)?;
    let minutes = u32::try_from(numbers[0]).ok()?;
    let unit = u8::try_from(numbers[1]).ok()?;
    let n = numbers[2] as usize;
    Some(Going::On(
        after,
        files::block_checked(part(file, 0, n), minutes, unit, page, at),
    ))
}

pub fn day_case(
    rt: &impl Machine,
    buf: &mut [u8],
    c: Cursor,
    file: &mut [u8],
    page: &mut [u8],
    at: usize,
) -> Option<Going> {
    let mut numbers = [0u64; 3];
    let after = file_in(rt, buf, c, b"y ", &mut numbers, file)?;
    let k = numbers[0] as usize;
    let w = numbers[1] as usize;
    let n = numbers[2] as usize;
    if PLACES < w {
        return None;
    }
    Some(Going::On(after, files::day(part(file, 0, n), k, w, page, at)))
}
