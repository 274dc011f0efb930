// A store made in a new file.
use leaf::digits::digits;
use machine::{Machine, WORD};
use making::make_store;
use outward::{DONE, FAILED, REFUSED, complain, keep, write_line};
use page::texts::{number, put};
use phrase::counts::{counted, quoted};
use store_lines::made;

// The words that say how many.
const SLOTS: usize = 4;

const BYTES: usize = 5;

const MOST_SLOTS: u64 = 64;

fn no_number(rt: &impl Machine, page: &mut [u8], word: &[u8], what: &[u8]) {
    let p = put(page, 0, b"nem: ");
    let q = quoted(page, p, word);
    let r = put(page, q, b" is no number of ");
    let s = put(page, r, what);
    complain(rt, page, s);
}

// The number that a word is, or what is wrong with it.
fn number_in(rt: &impl Machine, page: &mut [u8], i: usize, what: &[u8]) -> Option<u64> {
    let mut word = [0u8; WORD];
    let n = rt.arg(i, &mut word);
    let x = digits(&word[..n], 1, 14);
    if let None = x {
        no_number(rt, page, &word[..n], what);
    }
    x
}

fn too_many_bytes(rt: &impl Machine, page: &mut [u8]) {
    let p = put(
        page,
        0,
        b"nem: a store has at most 1,050,272 bytes: 32, 26 for each of 64 slots, and 1,048,576 of room",
    );
    complain(rt, page, p);
}

fn bad_slots(rt: &impl Machine, page: &mut [u8], slots: u64) {
    let p = put(page, 0, b"refused: 21, a store has 1 to 64 slots, and not ");
    let q = number(page, p, slots);
    complain(rt, page, q);
}

fn too_few_bytes(rt: &impl Machine, page: &mut [u8], slots: u64, bytes: usize) {
    let p = put(page, 0, b"refused: 15, too few bytes: a store of ");
    let q = counted(page, p, slots, b"slot");
    let r = put(
        page,
        q,
        b" has 32 and 26 for each slot before its room, which is more than ",
    );
    let s = number(page, r, bytes as u64);
    complain(rt, page, s);
}

// As many slots as were asked for, or more than a store has.
fn slot_count(slots: u64) -> u32 {
    if MOST_SLOTS < slots { 65 } else { slots as u32 }
}

fn make_in(rt: &impl Machine, page: &mut [u8], store: &mut [u8], slots: u64) -> u8 {
    match make_store(store, slot_count(slots)) {
        Ok(room) => {
            let status = keep(rt, store);
            if status != DONE {
                return status;
            }
            let p = made(page, 0, slots, room);
            write_line(rt, page, p)
        }
        Err(x) => {
            if x.number == 21 {
                bad_slots(rt, page, slots);
            } else {
                too_few_bytes(rt, page, slots, store.len());
            }
            REFUSED
        }
    }
}

// The memory has a place more than the longest store.
fn make_sized(
    rt: &impl Machine,
    page: &mut [u8],
    memory: &mut [u8],
    slots: u64,
    bytes: usize,
) -> u8 {
    if memory.len() <= bytes {
        too_many_bytes(rt, page);
        return FAILED;
    }
    make_in(rt, page, &mut memory[..bytes], slots)
}

pub fn make(rt: &impl Machine, page: &mut [u8], memory: &mut [u8]) -> u8 {
    let Some(slots) = number_in(rt, page, SLOTS, b"slots") else {
        return FAILED;
    };
    let Some(bytes) = number_in(rt, page, BYTES, b"bytes") else {
        return FAILED;
    };
    make_sized(rt, page, memory, slots, bytes as usize)
}
