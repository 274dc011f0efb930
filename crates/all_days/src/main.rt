// Reads days of a file in one call and says how many, for bench/month: what the call costs can't be seen on the probe, which writes out every interval. The words are its
// own name, the file's, and the numbers of the first and the last day.
#![tactic(auto)]

use disk::load_word;
use format::Refusal;
use leaf::digits::digits;
use machine::{Machine, PAGE, WORD};
use month::read_days;
use months::DaysRead;
use outward::{FAILED, REFUSED, finish, write_line};
use page::texts::{number, part, put};
use std::alloc::{AllocError, Global};

// A place more than the longest file has, so that a longer one is seen to be one.
const ROOM: usize = 1048577;

// Places for the intervals and the days of the files to measure with: a file that has more is refused (15).
const INTERVALS: usize = 174240;

const DAYS: usize = 10240;

// A day's number: 0 where the word is none.
fn day_word(rt: &impl Machine, i: usize) -> usize {
    let mut word = [0u8; WORD];
    let n = rt.arg(i, &mut word);
    let said = digits(&word[..n], 1, 9);
    match said {
        Some(v) => v as usize,
        None => 0,
    }
}

fn answered(rt: &impl Machine, page: &mut [u8], x: Result<DaysRead, Refusal>) -> u8 {
    match x {
        Ok(d) => {
            let p = number(page, 0, d.days as u64);
            let q = put(page, p, b" ");
            let r = number(page, q, d.intervals as u64);
            write_line(rt, page, r)
        }
        Err(refusal) => {
            let p = number(page, 0, refusal.number);
            write_line(rt, page, p);
            REFUSED
        }
    }
}

fn read_into(rt: &impl Machine, page: &mut [u8], file: &[u8], first: usize, last: usize) -> u8 {
    let mut values = [0u64; INTERVALS];
    let mut flags = [0u8; INTERVALS];
    let mut methods = [0u8; INTERVALS];
    let mut reasons = [0u16; INTERVALS];
    let mut starts = [0usize; INTERVALS];
    let mut lengths = [0usize; INTERVALS];
    let mut dates = [0u32; DAYS];
    let mut counts = [0usize; DAYS];
    let mut updates = [0u64; DAYS];
    let mut loads = [0u64; DAYS];
    let mut units = [0u8; DAYS];
    let x = read_days(
        file,
        first,
        last,
        &mut values,
        &mut flags,
        &mut methods,
        &mut reasons,
        &mut starts,
        &mut lengths,
        &mut dates,
        &mut counts,
        &mut updates,
        &mut loads,
        &mut units,
    );
    answered(rt, page, x)
}

fn show(rt: &impl Machine, page: &mut [u8], room: &mut [u8]) -> u8 {
    let Some(k) = load_word(rt, 1, room) else {
        return FAILED;
    };
    read_into(rt, page, part(room, 0, k), day_word(rt, 2), day_word(rt, 3))
}

fn run(rt: &impl Machine, alloc: Global) -> Result<u8, AllocError> {
    let mut page = [0u8; PAGE];
    let mut room = vec![in alloc; 0u8; ROOM]?;
    Ok(show(rt, &mut page, &mut room))
}

fn main(rt: HostRuntime) {
    finish(&rt, run(&rt, rt.alloc()));
}
