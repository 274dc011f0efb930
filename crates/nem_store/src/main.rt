// nem store: a store of days in a file, made, filled, read and emptied. The words are its own name, the command's, what is to be done, the store's file, and what
// that takes: slots and bytes, another file, or NMI, suffix and date. No contract can say what is read or written, so these functions are proved safe, and have
// none.
#![tactic(auto)]

mod delete;
mod get;
mod list;
mod make;
mod put;

use disk::load_word;
use kept_files::long_store;
use leaf::bytes::same_bytes;
use machine::{Machine, PAGE, WORD};
use named::date_of;
use outward::{FAILED, finish};
use std::alloc::{AllocError, Global};
use wanted::no_date;

// A place more than the longest store that has a use has, 64 slots and 1,048,576 bytes of room.
const MEMORY: usize = 1050273;

// One more than the longest file has.
const ROOM: usize = 1048577;

// The words behind the command's.
const WHAT: usize = 2;

const STORE: usize = 3;

const FIRST: usize = 4;

// More than the number of any date.
const EIGHT_DIGITS: u64 = 100000000;

// What is done with the day of a key.
fn of_key(
    rt: &impl Machine,
    page: &mut [u8],
    store: &mut [u8],
    what: &[u8],
    nmi: &[u8],
    suffix: &[u8],
    date: u32,
) -> u8 {
    if same_bytes(what, b"delete") {
        return delete::delete(rt, page, store, nmi, suffix, date);
    }
    get::get(rt, page, store, nmi, suffix, date)
}

// The key that the words give.
fn by_key(rt: &impl Machine, page: &mut [u8], store: &mut [u8], what: &[u8]) -> u8 {
    let mut nmi = [0u8; WORD];
    let n = rt.arg(FIRST, &mut nmi);
    let mut suffix = [0u8; WORD];
    let m = rt.arg(FIRST + 1, &mut suffix);
    let mut word = [0u8; WORD];
    let k = rt.arg(FIRST + 2, &mut word);
    match date_of(&word[..k]) {
        Some(day) => {
            let date = (day % EIGHT_DIGITS) as u32;
            of_key(rt, page, store, what, &nmi[..n], &suffix[..m], date)
        }
        None => {
            no_date(rt, page, &word[..k]);
            FAILED
        }
    }
}

// What is done with a store that is there. The room is for another file.
fn with_store(
    rt: &impl Machine,
    page: &mut [u8],
    store: &mut [u8],
    room: &mut [u8],
    what: &[u8],
) -> u8 {
    if same_bytes(what, b"put") {
        return put::put(rt, page, store, room);
    }
    if same_bytes(what, b"list") {
        return list::list(rt, page, store);
    }
    by_key(rt, page, store, what)
}

// The store has so many bytes of the memory, which has a place more than the longest one.
fn with_sized(
    rt: &impl Machine,
    page: &mut [u8],
    memory: &mut [u8],
    bytes: usize,
    room: &mut [u8],
    what: &[u8],
) -> u8 {
    if memory.len() <= bytes {
        long_store(rt, page);
        return FAILED;
    }
    with_store(rt, page, &mut memory[..bytes], room, what)
}

fn act(rt: &impl Machine, page: &mut [u8], memory: &mut [u8], room: &mut [u8]) -> u8 {
    let mut what = [0u8; WORD];
    let n = rt.arg(WHAT, &mut what);
    if same_bytes(&what[..n], b"make") {
        return make::make(rt, page, memory);
    }
    let Some(k) = load_word(rt, STORE, memory) else {
        return FAILED;
    };
    with_sized(rt, page, memory, k, room, &what[..n])
}

fn run(rt: &impl Machine, alloc: Global) -> Result<u8, AllocError> {
    let mut page = [0u8; PAGE];
    let mut memory = vec![in alloc; 0u8; MEMORY]?;
    let mut room = vec![in alloc; 0u8; ROOM]?;
    Ok(act(rt, &mut page, &mut memory, &mut room))
}

fn main(rt: HostRuntime) {
    finish(&rt, run(&rt, rt.alloc()));
}
