// What is said where the map has nothing to split a day by, with what would be right.
use kept_files::no_versions;
use machine::Machine;
use outward::complain;
use page::texts::{number, put};
use phrase::times::date;
use store_lines::key;
use versions::{count, first_date};

// ---- no version on the day's date

fn too_early(rt: &impl Machine, page: &mut [u8], map: &[u8], day: u32) {
    let p = put(page, 0, b"refused: 14, no version of the map holds on ");
    let q = date(page, p, day as u64);
    let r = put(page, q, b": version 1 begins on ");
    let s = date(page, r, first_date(map, 0) as u64);
    let t = put(
        page,
        s,
        b"\nno version can be added before it: make a map anew (nem map make) whose first one begins by then (nem map add)",
    );
    complain(rt, page, t);
}

pub fn no_version(rt: &impl Machine, page: &mut [u8], map: &[u8], day: u32) {
    if count(map) == 0 {
        no_versions(rt, page);
    } else {
        too_early(rt, page, map, day);
    }
}

// ---- no share on the day's channel

// By the length of the key that its outputs have.
fn why(page: &mut [u8], at: usize, key_len: usize) -> usize {
    if key_len == 0 {
        put(page, at, b"no output serves ")
    } else {
        put(
            page,
            at,
            b"the shares add up to 0 of the outputs that serve ",
        )
    }
}

fn what_to_do(page: &mut [u8], at: usize, day: u32) -> usize {
    let p = put(page, at, b"\nnem map show MAP ");
    let q = date(page, p, day as u64);
    put(
        page,
        q,
        b" shows that version; nem map add adds one with shares for this channel",
    )
}

pub fn no_shares(
    rt: &impl Machine,
    page: &mut [u8],
    nmi: &[u8],
    suffix: &[u8],
    day: u32,
    v: u32,
    key_len: usize,
) {
    let p = put(page, 0, b"refused: 26, ");
    let q = why(page, p, key_len);
    let r = key(page, q, nmi, suffix, day as u64);
    let s = put(page, r, b" by version ");
    let t = number(page, s, v as u64);
    let u = put(page, t, b" of the map");
    let w = what_to_do(page, u, day);
    complain(rt, page, w);
}
