// nem map: a tenant map in a file, made, added to, gone back in, and looked at. The words are its own name, the command's, what is to be done, the map's file, and
// what that takes: a first date and a table's file, a version and a first date, a date or none. No contract can say what is read or written, so these functions
// are proved safe, and have none.
#![tactic(auto)]

mod add;
mod appended;
mod asked;
mod back;
mod history;
mod make;
mod refused;
mod show;
mod table;

use disk::load_word;
use kept_files::{long_map, no_map};
use leaf::bytes::same_bytes;
use machine::{Machine, PAGE, WORD};
use outward::{FAILED, REFUSED, tell};
use versions::is_map;

// The words behind the command's.
const WHAT: usize = 2;

const MAP: usize = 3;

// What is done with a file that is there.
fn with_file(rt: &impl Machine, page: &mut [u8], map: &mut [u8], what: &[u8]) -> u8 {
    if !is_map(map) {
        no_map(rt, page);
        return REFUSED;
    }
    if same_bytes(what, b"add") {
        return add::add(rt, page, map);
    }
    if same_bytes(what, b"back") {
        return back::back(rt, page, map);
    }
    if same_bytes(what, b"history") {
        return history::history(rt, page, map);
    }
    show::show(rt, page, map)
}

// The file has so many bytes of the memory, which has a place more than the longest one.
fn with_sized(
    rt: &impl Machine,
    page: &mut [u8],
    memory: &mut [u8],
    bytes: usize,
    what: &[u8],
) -> u8 {
    if memory.len() <= bytes {
        long_map(rt, page);
        return FAILED;
    }
    with_file(rt, page, &mut memory[..bytes], what)
}

fn act(rt: &impl Machine, page: &mut [u8], memory: &mut [u8]) -> u8 {
    let mut what = [0u8; WORD];
    let n = rt.arg(WHAT, &mut what);
    if same_bytes(&what[..n], b"make") {
        return make::make(rt, page, memory);
    }
    let Some(k) = load_word(rt, MAP, memory) else {
        return FAILED;
    };
    with_sized(rt, page, memory, k, &what[..n])
}

// The memory has a place more than the longest file of a map.
fn main(rt: HostRuntime) {
    let mut page = [0u8; PAGE];
    let mut memory = [0u8; PAGE];
    tell(&rt, act(&rt, &mut page, &mut memory));
}
