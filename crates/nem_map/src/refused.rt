// What is said where a map or a table is refused, with what would be right.
use day::fields::skip;
use format::Refusal;
use kept_files::no_versions;
use machine::Machine;
use map_lines::at_fault;
use map_table::{Fault, NMI, SHARE, SUFFIX, number_of};
use outward::complain;
use page::texts::put;
use phrase::counts::counted;
use phrase::times::date;
use refusals::excerpts::{excerpt, mark};
use refusals::headline;
use versions::{count, first_date, latest_date};

// A refusal that nothing more is known of.
pub fn other(rt: &impl Machine, page: &mut [u8], x: Refusal) {
    let p = headline(page, 0, x.number);
    complain(rt, page, p);
}

// ---- dates

fn too_early(rt: &impl Machine, page: &mut [u8], map: &[u8]) {
    let p = put(
        page,
        0,
        b"refused: 14, no version holds then: version 1 begins on ",
    );
    let q = date(page, p, first_date(map, 0) as u64);
    complain(rt, page, q);
}

// No version holds on the date that is asked for.
pub fn of_asking(rt: &impl Machine, page: &mut [u8], map: &[u8]) {
    if count(map) == 0 {
        no_versions(rt, page);
    } else {
        too_early(rt, page, map);
    }
}

// ---- a version more

fn falls(rt: &impl Machine, page: &mut [u8], map: &[u8]) {
    let p = put(
        page,
        0,
        b"refused: 24, the first date falls: the newest version begins on ",
    );
    let q = date(page, p, latest_date(map) as u64);
    complain(rt, page, q);
}

fn full(rt: &impl Machine, page: &mut [u8]) {
    let p = put(
        page,
        0,
        b"refused: 23, the map is full: it holds 32 versions\n\
        begin a new map (nem map make) for the dates to come, and keep this one for those before",
    );
    complain(rt, page, p);
}

pub fn of_adding(rt: &impl Machine, page: &mut [u8], x: Refusal, map: &[u8]) {
    match x.number {
        24 => falls(rt, page, map),
        23 => full(rt, page),
        _ => other(rt, page, x),
    }
}

fn no_version(rt: &impl Machine, page: &mut [u8], map: &[u8]) {
    let p = put(page, 0, b"refused: 14, no such version: the map has ");
    let q = counted(page, p, count(map) as u64, b"version");
    complain(rt, page, q);
}

pub fn of_going_back(rt: &impl Machine, page: &mut [u8], x: Refusal, map: &[u8]) {
    if x.number == 14 {
        no_version(rt, page, map);
    } else {
        of_adding(rt, page, x, map);
    }
}

// ---- a table

// How many fields stand before the one at fault.
fn before(fault: Fault) -> usize {
    match fault {
        Fault::Fields | Fault::Output | Fault::Twice => 0,
        Fault::Nmi => NMI - 1,
        Fault::Suffix => SUFFIX - 1,
        Fault::Share | Fault::NoKey => SHARE - 1,
    }
}

// The line by its number from 1, what is wrong with it, and a mark under the field.
pub fn of_table(rt: &impl Machine, page: &mut [u8], number: u64, line: &[u8], fault: Fault) {
    let column = skip(line, 0, line.len(), before(fault));
    let p = at_fault(page, 0, number, number_of(fault));
    let q = put(page, p, b"\n");
    let r = excerpt(page, q, line, column);
    let s = put(page, r, b"\n");
    let t = mark(page, s, column);
    complain(rt, page, t);
}
