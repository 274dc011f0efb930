// nem totals, nem days and nem day: a file's channels, its days, and some or one of its days, as tables. The words are its own name, the command's, the file's,
// and for some days the numbers of the first and the last, for one which it is.
#![tactic(auto)]

mod all_days;
mod one_day;
mod some_days;
mod totals;

use disk::load_word;
use leaf::bytes::same_bytes;
use machine::{Machine, PAGE, WORD};
use outward::{FAILED, finish};
use page::texts::part;
use std::alloc::{AllocError, Global};

// A place more than the longest file has, so that a longer one is seen to be one.
const ROOM: usize = 1048577;

// How many words there are where the first and the last day are given.
const FROM_TO: usize = 5;

// All days, a line each, or some of them as tables.
fn days(rt: &impl Machine, page: &mut [u8], file: &[u8]) -> u8 {
    if rt.arg_count() == FROM_TO {
        some_days::show(rt, page, file)
    } else {
        all_days::show(rt, page, file)
    }
}

fn table(rt: &impl Machine, page: &mut [u8], file: &[u8], command: &[u8]) -> u8 {
    if same_bytes(command, b"totals") {
        totals::show(rt, page, file)
    } else if same_bytes(command, b"days") {
        days(rt, page, file)
    } else {
        one_day::show(rt, page, file)
    }
}

fn show(rt: &impl Machine, page: &mut [u8], room: &mut [u8]) -> u8 {
    let mut command = [0u8; WORD];
    let n = rt.arg(1, &mut command);
    let Some(k) = load_word(rt, 2, room) else {
        return FAILED;
    };
    table(rt, page, part(room, 0, k), &command[..n])
}

fn run(rt: &impl Machine, alloc: Global) -> Result<u8, AllocError> {
    let mut page = [0u8; PAGE];
    let mut room = vec![in alloc; 0u8; ROOM]?;
    Ok(show(rt, &mut page, &mut room))
}

fn main(rt: HostRuntime) {
    finish(&rt, run(&rt, rt.alloc()));
}
