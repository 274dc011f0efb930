// All versions of a map, a line for each.
use leaf::bytes::same_bytes;
use machine::Machine;
use map_counts::{channels, used};
use map_lines::out_of;
use map_lines::tables::version_row;
use outward::{DONE, write_line};
use page::texts::put;
use versions::{count, entries_at, first_date};

fn are_alike(map: &[u8], i: u32, j: u32) -> bool {
    same_bytes(entries_at(map, i), entries_at(map, j))
}

// The number of the first version before place i that has the same entries, 0 where there is none.
fn earlier(map: &[u8], i: u32) -> u32 {
    for j in 0..i {
        if are_alike(map, i, j) {
            return j + 1;
        }
    }
    0
}

// The line of the version of a number, which stands at place i.
fn line(rt: &impl Machine, page: &mut [u8], map: &[u8], v: u32, i: u32) -> u8 {
    let entries = entries_at(map, i);
    let p = version_row(
        page,
        0,
        v,
        first_date(map, i) as u64,
        used(entries),
        channels(entries),
        earlier(map, i),
    );
    write_line(rt, page, p)
}

fn lines(rt: &impl Machine, page: &mut [u8], map: &[u8], n: u32) -> u8 {
    for i in 0..n {
        let status = line(rt, page, map, i + 1, i);
        if status != DONE {
            return status;
        }
    }
    DONE
}

fn headed(rt: &impl Machine, page: &mut [u8]) -> u8 {
    let p = put(page, 0, b"version  from        outputs  channels");
    write_line(rt, page, p)
}

fn last_line(rt: &impl Machine, page: &mut [u8], n: u32) -> u8 {
    let p = out_of(page, 0, n as u64, b"32 versions");
    write_line(rt, page, p)
}

pub fn history(rt: &impl Machine, page: &mut [u8], map: &[u8]) -> u8 {
    let n = count(map);
    let status = headed(rt, page);
    if status != DONE {
        return status;
    }
    let printed = lines(rt, page, map, n);
    if printed != DONE {
        return printed;
    }
    last_line(rt, page, n)
}
