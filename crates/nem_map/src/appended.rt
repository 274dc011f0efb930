// A map with a version more, kept and told of.
use machine::Machine;
use map_counts::{channels, used};
use map_lines::added;
use outward::{DONE, keep, write_line};
use versions::{count, entries_at, first_date};

// The place of the last version in the list.
fn last(map: &[u8]) -> u32 {
    count(map).saturating_sub(1)
}

pub fn keep_appended(rt: &impl Machine, page: &mut [u8], map: &[u8]) -> u8 {
    let status = keep(rt, map);
    if status != DONE {
        return status;
    }
    let i = last(map);
    let entries = entries_at(map, i);
    let p = added(
        page,
        0,
        count(map),
        first_date(map, i) as u64,
        used(entries),
        channels(entries),
    );
    write_line(rt, page, p)
}
