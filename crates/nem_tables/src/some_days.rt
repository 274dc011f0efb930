// The days of a file from one to another, each as the table of one day.
ghost use Rattle.std.specs.Prelude.{◌+◌};
ghost use Rattle.format.specs.File.{IsAccepted};
ghost use Rattle.day.specs.Places.{DayAhead};

use super::one_day::table;
use checking::tour::check_and_note;
use day::DayStart;
use day_rows::no_such_day;
use explain::refused::explained;
use filling::read_noted;
use machine::Machine;
use outward::{DONE, REFUSED, complain, warn, write_line};
use page::texts::{number, put};
use wanted::by_number;

const MOST: usize = 288;

// The word that is the first day's number.
const FIRST: usize = 3;

// The word that is the last day's number.
const LAST: usize = 4;

// ---- the tables

// Behind a day's table: the status of writing it out, and from where the next day is found.
#[derive(Clone, Copy)]
struct Turned {
    status: u8,
    next: DayStart,
}

// The table of the day of a number, read into lent lists.
fn turn_in(
    rt: &impl Machine,
    page: &mut [u8],
    file: &[u8],
    k: usize,
    from: DayStart,
    values: &mut [u64],
    flags: &mut [u8],
    methods: &mut [u8],
    reasons: &mut [u16],
    starts: &mut [usize],
    lengths: &mut [usize],
) -> Turned
    requires { IsAccepted file.now × DayAhead file.now k from }
    ensures { DayAhead file.now (k + 1) result.next }
{
    let t = read_noted(
        file, k, from, values, flags, methods, reasons, starts, lengths,
    );
    let answer = t.answer;
    let next = t.next;
    let status = table(
        rt, page, file, answer, values, flags, methods, reasons, starts, lengths,
    );
    Turned { status, next }
}

// The table of the day of a number.
fn turn(rt: &impl Machine, page: &mut [u8], file: &[u8], k: usize, from: DayStart) -> Turned
    requires { IsAccepted file.now × DayAhead file.now k from }
    ensures { DayAhead file.now (k + 1) result.next }
{
    let mut values = [0u64; MOST];
    let mut flags = [0u8; MOST];
    let mut methods = [0u8; MOST];
    let mut reasons = [0u16; MOST];
    let mut starts = [0usize; MOST];
    let mut lengths = [0usize; MOST];
    turn_in(
        rt,
        page,
        file,
        k,
        from,
        &mut values,
        &mut flags,
        &mut methods,
        &mut reasons,
        &mut starts,
        &mut lengths,
    )
}

// The empty line before each table but the first.
fn parted(rt: &impl Machine, page: &mut [u8], k: usize, first: usize) -> u8 {
    if k == first {
        return DONE;
    }
    write_line(rt, page, 0)
}

// The tables of the days from the first up to the end, which is left out; all are there. Day after day gives what `month::read_days` answers and leaves of them in
// one call, whose long lists would bound how many days can be printed.
fn tables(
    rt: &impl Machine,
    page: &mut [u8],
    file: &[u8],
    first: usize,
    end: usize,
    start: DayStart,
) -> u8
    requires { IsAccepted file.now × DayAhead file.now first start }
{
    let mut from = start;
    for k in first..end {
        let apart = parted(rt, page, k, first);
        if apart != DONE {
            return apart;
        }
        let t = turn(rt, page, file, k, from);
        if t.status != DONE {
            return t.status;
        }
        from = t.next;
    }
    DONE
}

// ---- which days

// Someone who wrote the higher number first is told why no table comes: it is no refusal, so the status does not say it.
fn say_none(rt: &impl Machine, page: &mut [u8], first: usize, last: usize) {
    let p = put(page, 0, b"nem: no days from ");
    let q = number(page, p, first as u64);
    let r = put(page, q, b" to ");
    let s = number(page, r, last as u64);
    let t = put(page, s, b": the lower number comes first");
    complain(rt, page, t);
}

// Which day is said not to be there, in a file of so many days that has not the last: the first, where it has not that either.
fn lacking(first: usize, last: usize, days: usize) -> usize {
    if days <= first { first } else { last }
}

// The days of an accepted file that has so many. Whether all of them are there is known before the first is printed.
fn show_all(
    rt: &impl Machine,
    page: &mut [u8],
    file: &[u8],
    first: usize,
    last: usize,
    days: usize,
    start: DayStart,
) -> u8
    requires { IsAccepted file.now × DayAhead file.now first start }
{
    if last < first {
        say_none(rt, page, first, last);
        return DONE;
    }
    if days <= last {
        let p = no_such_day(page, lacking(first, last, days), days);
        warn(rt, page, p);
        return REFUSED;
    }
    tables(rt, page, file, first, last + 1, start)
}

fn show_days(rt: &impl Machine, page: &mut [u8], file: &[u8], first: usize, last: usize) -> u8 {
    let noted = check_and_note(file, first, 0);
    let answer = noted.answer;
    let start = noted.day;
    match answer {
        Ok(c) => show_all(rt, page, file, first, last, c.days, start),
        Err(x) => {
            let p = explained(page, 0, file, x);
            warn(rt, page, p);
            REFUSED
        }
    }
}

fn show_from(rt: &impl Machine, page: &mut [u8], file: &[u8], first: usize) -> u8 {
    match by_number(rt, page, LAST) {
        Ok(last) => show_days(rt, page, file, first, last),
        Err(status) => status,
    }
}

pub fn show(rt: &impl Machine, page: &mut [u8], file: &[u8]) -> u8 {
    match by_number(rt, page, FIRST) {
        Ok(first) => show_from(rt, page, file, first),
        Err(status) => status,
    }
}
