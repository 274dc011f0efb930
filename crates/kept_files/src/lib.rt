// What is said of the file of a store or of a map that can't be used: it is too long, is no store or no map, or has not what is asked for. No contract can say what
// is written, so these functions are proved safe, and have none.
#![tactic(auto)]

use format::Refusal;
use machine::Machine;
use outward::complain;
use page::texts::put;
use store_lines::key;

// ---- a store

pub fn long_store(rt: &impl Machine, page: &mut [u8]) {
    let p = put(
        page,
        0,
        b"nem: the store's file is longer than 1,050,272 bytes, the most that a store of 64 slots takes",
    );
    complain(rt, page, p);
}

pub fn no_store(rt: &impl Machine, page: &mut [u8]) {
    let p = put(
        page,
        0,
        b"refused: 21, no store: the file was never made one, was written half, or is another thing\n\
        take the other copy of it, or make a store anew (nem store make) and put the files into it (docs/STORE.md)",
    );
    complain(rt, page, p);
}

fn not_there(rt: &impl Machine, page: &mut [u8], nmi: &[u8], suffix: &[u8], date: u32) {
    let p = put(page, 0, b"refused: 14, no such day: the store has none of ");
    let q = key(page, p, nmi, suffix, date as u64);
    complain(rt, page, q);
}

// Of a call for the day of a key: 14, or 21.
pub fn no_day(
    rt: &impl Machine,
    page: &mut [u8],
    x: Refusal,
    nmi: &[u8],
    suffix: &[u8],
    date: u32,
) {
    if x.number == 14 {
        not_there(rt, page, nmi, suffix, date);
    } else {
        no_store(rt, page);
    }
}

// ---- a map

pub fn long_map(rt: &impl Machine, page: &mut [u8]) {
    let p = put(
        page,
        0,
        b"nem: the map's file is longer than 65,535 bytes; a map takes 57,476",
    );
    complain(rt, page, p);
}

pub fn no_map(rt: &impl Machine, page: &mut [u8]) {
    let p = put(
        page,
        0,
        b"refused: 21, no map: the file was never made one, was written half, or is another thing\n\
        take the other copy of it, or make a map anew (nem map make) and add its versions (docs/MAP.md)",
    );
    complain(rt, page, p);
}

// No version holds on any date.
pub fn no_versions(rt: &impl Machine, page: &mut [u8]) {
    let p = put(
        page,
        0,
        b"refused: 14, the map has no version yet; nem map add adds one",
    );
    complain(rt, page, p);
}
