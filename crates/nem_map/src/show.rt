// A version as tables: its outputs in use, and its channels.
use super::asked::{FIRST, date};
use super::refused::of_asking;
use machine::Machine;
use map_counts::{OUTPUTS, is_first, is_used, key_at, outputs_on, share_at, shares_on, used};
use map_lines::tables::{channel_row, output_row};
use map_lines::{out_of, span};
use outward::{DONE, FAILED, REFUSED, write_line};
use page::texts::{part, put};
use versions::{count, entries_at, first_date, version_on};

// ---- outputs

// The line of an output, none where it is unused.
fn output(rt: &impl Machine, page: &mut [u8], entries: &[u8], i: u32) -> u8 {
    if !is_used(entries, i) {
        return DONE;
    }
    let key = key_at(entries, i);
    let p = output_row(
        page,
        0,
        i,
        part(key, 0, 10),
        part(key, 10, 12),
        share_at(entries, i),
    );
    write_line(rt, page, p)
}

fn outputs(rt: &impl Machine, page: &mut [u8], entries: &[u8]) -> u8 {
    for i in 0..OUTPUTS {
        let status = output(rt, page, entries, i);
        if status != DONE {
            return status;
        }
    }
    DONE
}

// ---- channels

// The line of the channel whose first output it is.
fn channel(rt: &impl Machine, page: &mut [u8], entries: &[u8], i: u32) -> u8 {
    if !is_first(entries, i) {
        return DONE;
    }
    let key = key_at(entries, i);
    let p = channel_row(
        page,
        0,
        part(key, 0, 10),
        part(key, 10, 12),
        outputs_on(entries, key),
        shares_on(entries, key),
    );
    write_line(rt, page, p)
}

fn channels(rt: &impl Machine, page: &mut [u8], entries: &[u8]) -> u8 {
    for i in 0..OUTPUTS {
        let status = channel(rt, page, entries, i);
        if status != DONE {
            return status;
        }
    }
    DONE
}

// ---- a version

// From when to when it holds, and the headings of its outputs.
fn top(rt: &impl Machine, page: &mut [u8], v: u32, first: u32, next: u32) -> u8 {
    let p = span(page, 0, v, first as u64, next as u64);
    let q = put(page, p, b"\noutput  NMI         suffix  share");
    write_line(rt, page, q)
}

// How many outputs are in use, and the headings of the channels.
fn middle(rt: &impl Machine, page: &mut [u8], entries: &[u8]) -> u8 {
    let p = out_of(
        page,
        0,
        used(entries),
        b"128 outputs in use\n\nNMI         suffix  outputs  shares",
    );
    write_line(rt, page, p)
}

fn tables(rt: &impl Machine, page: &mut [u8], entries: &[u8]) -> u8 {
    let status = outputs(rt, page, entries);
    if status != DONE {
        return status;
    }
    let printed = middle(rt, page, entries);
    if printed != DONE {
        return printed;
    }
    channels(rt, page, entries)
}

// The first date of the version at a place, 0 where there is none.
fn date_at(map: &[u8], i: u32) -> u32 {
    if count(map) <= i {
        0
    } else {
        first_date(map, i)
    }
}

// The version of a number, which stands at place i.
fn version(rt: &impl Machine, page: &mut [u8], map: &[u8], v: u32, i: u32) -> u8 {
    let status = top(rt, page, v, first_date(map, i), date_at(map, v));
    if status != DONE {
        return status;
    }
    tables(rt, page, entries_at(map, i))
}

// ---- which

// The version of a number, 0 for none.
fn show_version(rt: &impl Machine, page: &mut [u8], map: &[u8], v: u32) -> u8 {
    if v == 0 {
        of_asking(rt, page, map);
        return REFUSED;
    }
    version(rt, page, map, v, v - 1)
}

// The version that holds on the date that is asked for, or the newest.
pub fn show(rt: &impl Machine, page: &mut [u8], map: &[u8]) -> u8 {
    if rt.arg_count() <= FIRST {
        return show_version(rt, page, map, count(map));
    }
    let Some(day) = date(rt, page, FIRST) else {
        return FAILED;
    };
    show_version(rt, page, map, version_on(map, day))
}
