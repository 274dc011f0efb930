// A version added from a table.
use super::appended::keep_appended;
use super::asked::{FIRST, date};
use super::refused::{of_adding, of_table};
use super::table::read_table;
use disk::load_word;
use machine::{Machine, PAGE};
use outward::{FAILED, REFUSED, complain};
use page::texts::{part, put};
use tenant_map::add_version;

// The word that names the table's file.
const TABLE: usize = 5;

fn too_long(rt: &impl Machine, page: &mut [u8]) {
    let p = put(
        page,
        0,
        b"nem: the table is longer than 65,535 bytes; it has a line for an output, 128 at the most",
    );
    complain(rt, page, p);
}

fn add_given(
    rt: &impl Machine,
    page: &mut [u8],
    map: &mut [u8],
    first: u32,
    keys: &[u8],
    shares: &[u16],
) -> u8 {
    match add_version(map, first, keys, shares) {
        Ok(_) => keep_appended(rt, page, map),
        Err(x) => {
            of_adding(rt, page, x, map);
            REFUSED
        }
    }
}

fn add_in(
    rt: &impl Machine,
    page: &mut [u8],
    map: &mut [u8],
    first: u32,
    text: &[u8],
    keys: &mut [u8],
    shares: &mut [u16],
) -> u8 {
    match read_table(text, keys, shares) {
        Ok(()) => add_given(rt, page, map, first, keys, shares),
        Err(wrong) => {
            of_table(
                rt,
                page,
                wrong.line,
                part(text, wrong.from, wrong.to),
                wrong.fault,
            );
            REFUSED
        }
    }
}

fn add_text(rt: &impl Machine, page: &mut [u8], map: &mut [u8], first: u32, text: &[u8]) -> u8 {
    let mut keys = [0u8; 1536];
    let mut shares = [0u16; 128];
    add_in(rt, page, map, first, text, &mut keys, &mut shares)
}

// The room has a place more than the longest table.
fn add_loaded(
    rt: &impl Machine,
    page: &mut [u8],
    map: &mut [u8],
    first: u32,
    room: &mut [u8],
) -> u8 {
    let Some(n) = load_word(rt, TABLE, room) else {
        return FAILED;
    };
    if room.len() <= n {
        too_long(rt, page);
        return FAILED;
    }
    add_text(rt, page, map, first, part(room, 0, n))
}

pub fn add(rt: &impl Machine, page: &mut [u8], map: &mut [u8]) -> u8 {
    let Some(first) = date(rt, page, FIRST) else {
        return FAILED;
    };
    let mut room = [0u8; PAGE];
    add_loaded(rt, page, map, first, &mut room)
}
