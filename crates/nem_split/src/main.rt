// nem split: a day of a file or of a store, split over the outputs that a map has on its channel. The words are its own name, the command's, the map's file, and
// either a file and a day's number, or a store's file, an NMI, a suffix and a date. No contract can say what is read or written, so these functions are proved safe,
// and have none.
#![tactic(auto)]

mod file_day;
mod refused;
mod shown;
mod stored_day;

use disk::load_word;
use kept_files::{long_map, long_store};
use machine::{Machine, PAGE};
use outward::{FAILED, finish};
use page::texts::part;
use std::alloc::{AllocError, Global};

// A place more than the longest store that has a use has, 64 slots and 1,048,576 bytes of room; a file that is too long is seen to be so too.
const ROOM: usize = 1050273;

// The words behind the command's.
const MAP: usize = 2;

const HOLDER: usize = 3;

// How many words there are where the day is one of a store.
const OF_STORE: usize = 7;

// The holder's bytes are so many of the room, which has a place more than the longest store.
fn with_store(rt: &impl Machine, page: &mut [u8], map: &[u8], room: &[u8], bytes: usize) -> u8 {
    if room.len() <= bytes {
        long_store(rt, page);
        return FAILED;
    }
    stored_day::split(rt, page, map, part(room, 0, bytes))
}

// What holds the day, a store or a file.
fn with_map(rt: &impl Machine, page: &mut [u8], map: &[u8], room: &mut [u8]) -> u8 {
    let Some(n) = load_word(rt, HOLDER, room) else {
        return FAILED;
    };
    if rt.arg_count() == OF_STORE {
        return with_store(rt, page, map, room, n);
    }
    file_day::split(rt, page, map, part(room, 0, n))
}

// The memory has a place more than the longest file of a map.
fn act(rt: &impl Machine, page: &mut [u8], memory: &mut [u8], room: &mut [u8]) -> u8 {
    let Some(n) = load_word(rt, MAP, memory) else {
        return FAILED;
    };
    if memory.len() <= n {
        long_map(rt, page);
        return FAILED;
    }
    with_map(rt, page, part(memory, 0, n), room)
}

fn run(rt: &impl Machine, alloc: Global) -> Result<u8, AllocError> {
    let mut page = [0u8; PAGE];
    let mut memory = [0u8; PAGE];
    let mut room = vec![in alloc; 0u8; ROOM]?;
    Ok(act(rt, &mut page, &mut memory, &mut room))
}

fn main(rt: HostRuntime) {
    finish(&rt, run(&rt, rt.alloc()));
}
