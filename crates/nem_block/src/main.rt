// nem block: a day as its shortest block of records. The words are its own name, the command's, the file's, and which day it is.
#![tactic(auto)]

use day_rows::{minutes, refused};
use disk::load_word;
use explain::refused::explained;
use format::{DayHead, DayRead, Refusal, Written};
use machine::{Machine, PAGE};
use outward::{FAILED, REFUSED, finish, warn, write};
use page::texts::part;
use reading::read_day::read_day;
use std::alloc::{AllocError, Global};
use wanted::wanted_day;
use writing::write_day;

// A place more than the longest file has, so that a longer one is seen to be one.
const ROOM: usize = 1048577;

const MOST: usize = 288;

// More than the longest block has.
const MOST_ROOM: usize = 131072;

fn block_out(
    rt: &impl Machine,
    page: &mut [u8],
    file: &[u8],
    x: Result<Written, Refusal>,
    room: &[u8],
) -> u8 {
    match x {
        Ok(w) => write(rt, room, w.bytes),
        Err(y) => {
            let p = explained(page, 0, file, y);
            warn(rt, page, p);
            REFUSED
        }
    }
}

fn block_in(
    rt: &impl Machine,
    page: &mut [u8],
    file: &[u8],
    day: DayHead,
    values: &[u64],
    flags: &[u8],
    methods: &[u8],
    reasons: &[u16],
    starts: &[usize],
    lengths: &[usize],
    room: &mut [u8],
) -> u8 {
    let x = write_day(
        day, values, flags, methods, reasons, starts, lengths, file, room,
    );
    block_out(rt, page, file, x, room)
}

fn block(
    rt: &impl Machine,
    page: &mut [u8],
    file: &[u8],
    day: DayHead,
    values: &[u64],
    flags: &[u8],
    methods: &[u8],
    reasons: &[u16],
    starts: &[usize],
    lengths: &[usize],
) -> u8 {
    let mut room = [0u8; MOST_ROOM];
    block_in(
        rt, page, file, day, values, flags, methods, reasons, starts, lengths, &mut room,
    )
}

fn answer(
    rt: &impl Machine,
    page: &mut [u8],
    file: &[u8],
    x: Result<DayRead, Refusal>,
    values: &[u64],
    flags: &[u8],
    methods: &[u8],
    reasons: &[u16],
    starts: &[usize],
    lengths: &[usize],
) -> u8 {
    match x {
        Ok(d) => {
            let day = DayHead {
                date: d.date,
                length: minutes(d.n),
                update: d.update,
                load: d.load,
                unit: d.unit,
            };
            block(
                rt, page, file, day, values, flags, methods, reasons, starts, lengths,
            )
        }
        Err(y) => {
            let p = refused(page, file, y);
            warn(rt, page, p);
            REFUSED
        }
    }
}

fn show_in(
    rt: &impl Machine,
    page: &mut [u8],
    file: &[u8],
    k: usize,
    values: &mut [u64],
    flags: &mut [u8],
    methods: &mut [u8],
    reasons: &mut [u16],
    starts: &mut [usize],
    lengths: &mut [usize],
) -> u8 {
    let x = read_day(file, k, values, flags, methods, reasons, starts, lengths);
    answer(
        rt, page, file, x, values, flags, methods, reasons, starts, lengths,
    )
}

fn show_day(rt: &impl Machine, page: &mut [u8], file: &[u8], k: usize) -> u8 {
    let mut values = [0u64; MOST];
    let mut flags = [0u8; MOST];
    let mut methods = [0u8; MOST];
    let mut reasons = [0u16; MOST];
    let mut starts = [0usize; MOST];
    let mut lengths = [0usize; MOST];
    show_in(
        rt,
        page,
        file,
        k,
        &mut values,
        &mut flags,
        &mut methods,
        &mut reasons,
        &mut starts,
        &mut lengths,
    )
}

fn show(rt: &impl Machine, page: &mut [u8], room: &mut [u8]) -> u8 {
    let Some(n) = load_word(rt, 2, room) else {
        return FAILED;
    };
    let file = part(room, 0, n);
    match wanted_day(rt, page, file) {
        Ok(k) => show_day(rt, page, file, k),
        Err(status) => status,
    }
}

fn run(rt: &impl Machine, alloc: Global) -> Result<u8, AllocError> {
    let mut page = [0u8; PAGE];
    let mut room = vec![in alloc; 0u8; ROOM]?;
    Ok(show(rt, &mut page, &mut room))
}

fn main(rt: HostRuntime) {
    finish(&rt, run(&rt, rt.alloc()));
}
