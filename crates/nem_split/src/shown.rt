// What a splitting answers, as a table of the outputs on the channel.
use super::refused::{no_shares, no_version};
use format::Refusal;
use kept_files::no_map;
use keys::same_capitals;
use leaf::bytes::same_bytes;
use machine::Machine;
use map_counts::{OUTPUTS, key_at, share_at, shares_on};
use outward::{DONE, REFUSED, write_line};
use page::items::u64_at;
use page::texts::{part, put};
use split_lines::{headings, is_energy, note, part_row, sum_row, title};
use units::Spelling;
use versions::{entries_at, is_map, version_on};

// A day beside its channel: its date, its unit by number, and what its values add up to.
#[derive(Clone, Copy)]
pub struct Day {
    pub date: u32,
    pub unit: u8,
    pub total: u64,
}

// ---- the table

// The line of an output, none where it has another key.
fn output(
    rt: &impl Machine,
    page: &mut [u8],
    entries: &[u8],
    key: &[u8],
    parts: &[u64],
    i: u32,
) -> u8 {
    if !same_bytes(key_at(entries, i), key) {
        return DONE;
    }
    let p = part_row(
        page,
        0,
        i,
        part(key, 0, 10),
        part(key, 10, 12),
        share_at(entries, i),
        u64_at(parts, i as usize),
    );
    write_line(rt, page, p)
}

fn outputs(rt: &impl Machine, page: &mut [u8], entries: &[u8], key: &[u8], parts: &[u64]) -> u8 {
    for i in 0..OUTPUTS {
        let status = output(rt, page, entries, key, parts, i);
        if status != DONE {
            return status;
        }
    }
    DONE
}

// The parts are added up anew: who bills from them sees that nothing of the day is lost.
fn sum_of(parts: &[u64]) -> u64 {
    let mut sum: u64 = 0;
    for part in parts {
        sum = sum.wrapping_add(*part);
    }
    sum
}

// What the columns add up to, and behind it what to think of the unit.
fn bottom(rt: &impl Machine, page: &mut [u8], shares: u64, sum: u64, unit: &[u8]) -> u8 {
    let p = sum_row(page, 0, shares, sum);
    if is_energy(unit) {
        return write_line(rt, page, p);
    }
    let q = put(page, p, b"\n");
    let r = note(page, q, unit);
    write_line(rt, page, r)
}

fn top(
    rt: &impl Machine,
    page: &mut [u8],
    nmi: &[u8],
    suffix: &[u8],
    date: u32,
    total: u64,
    unit: &[u8],
    v: u32,
) -> u8 {
    let p = title(page, 0, nmi, suffix, date as u64, total, unit, v);
    let q = put(page, p, b"\n");
    let r = headings(page, q);
    write_line(rt, page, r)
}

// The table of the outputs that have the key in a version's entries.
fn table(
    rt: &impl Machine,
    page: &mut [u8],
    entries: &[u8],
    key: &[u8],
    day: Day,
    v: u32,
    parts: &[u64],
) -> u8 {
    let s: Spelling = units::name(day.unit);
    let bytes = s.bytes;
    let unit = part(&bytes, 0, s.length);
    let status = top(
        rt,
        page,
        part(key, 0, 10),
        part(key, 10, 12),
        day.date,
        day.total,
        unit,
        v,
    );
    if status != DONE {
        return status;
    }
    let printed = outputs(rt, page, entries, key, parts);
    if printed != DONE {
        return printed;
    }
    bottom(rt, page, shares_on(entries, key), sum_of(parts), unit)
}

// ---- which

fn is_on(key: &[u8], nmi: &[u8], suffix: &[u8]) -> bool {
    same_capitals(nmi, part(key, 0, 10)) && same_capitals(suffix, part(key, 10, 12))
}

// The channel's key as its outputs have it, empty where none is on it.
fn key_on<'a>(entries: &'a [u8], nmi: &[u8], suffix: &[u8]) -> &'a [u8] {
    for i in 0..OUTPUTS {
        let key = key_at(entries, i);
        if is_on(key, nmi, suffix) {
            return key;
        }
    }
    part(entries, 0, 0)
}

// What was answered by the entries of a version: of 21 and 14 there is none, and 15, 25 and 27 can't come of a day and a map, so a refusal is 26.
fn show_by(
    rt: &impl Machine,
    page: &mut [u8],
    entries: &[u8],
    nmi: &[u8],
    suffix: &[u8],
    day: Day,
    v: u32,
    answer: Result<usize, Refusal>,
    parts: &[u64],
) -> u8 {
    let key = key_on(entries, nmi, suffix);
    match answer {
        Ok(_) => table(rt, page, entries, key, day, v, parts),
        Err(_) => {
            no_shares(rt, page, nmi, suffix, day.date, v, key.len());
            REFUSED
        }
    }
}

// What was answered of a day that is there, by its channel's NMI and suffix.
pub fn show(
    rt: &impl Machine,
    page: &mut [u8],
    map: &[u8],
    nmi: &[u8],
    suffix: &[u8],
    day: Day,
    answer: Result<usize, Refusal>,
    parts: &[u64],
) -> u8 {
    if !is_map(map) {
        no_map(rt, page);
        return REFUSED;
    }
    let v = version_on(map, day.date);
    if v == 0 {
        no_version(rt, page, map, day.date);
        return REFUSED;
    }
    show_by(
        rt,
        page,
        entries_at(map, v - 1),
        nmi,
        suffix,
        day,
        v,
        answer,
        parts,
    )
}
