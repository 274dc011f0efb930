// The days of a file, a line for each.
ghost use Rattle.std.specs.Prelude.{◌+◌};
ghost use Rattle.format.specs.File.{IsAccepted};
ghost use Rattle.day.specs.Places.{DayAhead};

use checking::tour::check_and_note;
use day::{DayStart, Place};
use day_rows::minutes;
use explain::refused::explained;
use filling::read_noted;
use format::{DayRead, Refusal};
use listing::lines::{headings, row};
use machine::Machine;
use measures::counts::counts_of;
use outward::{DONE, REFUSED, warn, write};
use page::texts::{part, put};
use records::{NMI, SUFFIX, UNIT_OF_200, field};
use sums::day_sum;

const MOST: usize = 288;

// Where the channel of the last day stands, and its number.
#[derive(Clone, Copy)]
struct Under {
    at: usize,
    channel: usize,
}

// The channel of a day whose 200 stands at a place: each channel of a NEM12 file has days, so another 200 is that of the next, and none has a higher number
// than its first day.
fn under_at(before: Under, day: usize, at: usize) -> Under {
    if day <= before.channel {
        Under { at, channel: day }
    } else if at == before.at {
        before
    } else {
        Under {
            at,
            channel: before.channel + 1,
        }
    }
}

// Behind a day's line: the channel that it is of, and the status of writing it out.
#[derive(Clone, Copy)]
struct Shown {
    under: Under,
    status: u8,
}

// The same, and from where the next day is found.
#[derive(Clone, Copy)]
struct Passed {
    shown: Shown,
    next: DayStart,
}

// The line of day k of a channel, whose 200 is given.
fn line(
    rt: &impl Machine,
    page: &mut [u8],
    k: usize,
    channel: usize,
    record: &[u8],
    date: u32,
    n: usize,
    sum: u64,
    flags: &[u8],
) -> u8 {
    let p = row(
        page,
        0,
        k,
        channel,
        field(record, NMI),
        field(record, SUFFIX),
        date as u64,
        minutes(n) as u64,
        sum,
        field(record, UNIT_OF_200),
        counts_of(flags, n),
    );
    let q = put(page, p, b"\n");
    write(rt, page, q)
}

// The day at a place, as it was read.
fn placed(
    rt: &impl Machine,
    page: &mut [u8],
    file: &[u8],
    k: usize,
    before: Under,
    place: Option<Place>,
    x: Result<DayRead, Refusal>,
    sum: u64,
    flags: &[u8],
) -> Shown {
    let Some(day) = place else {
        return Shown {
            under: before,
            status: DONE,
        };
    };
    let Ok(read) = x else {
        return Shown {
            under: before,
            status: DONE,
        };
    };
    let under = under_at(before, k, day.under.at);
    let record = part(file, day.under.at, day.under.end);
    Shown {
        under,
        status: line(
            rt,
            page,
            k,
            under.channel,
            record,
            read.date,
            read.n,
            sum,
            flags,
        ),
    }
}

// The line of the day of a number, read into lent lists.
fn turn_in(
    rt: &impl Machine,
    page: &mut [u8],
    file: &[u8],
    k: usize,
    before: Under,
    from: DayStart,
    values: &mut [u64],
    flags: &mut [u8],
    methods: &mut [u8],
    reasons: &mut [u16],
    starts: &mut [usize],
    lengths: &mut [usize],
) -> Passed
    requires { IsAccepted file.now × DayAhead file.now k from }
    ensures { DayAhead file.now (k + 1) result.next }
{
    let t = read_noted(
        file, k, from, values, flags, methods, reasons, starts, lengths,
    );
    let place = t.place;
    let answer = t.answer;
    let next = t.next;
    let sum = day_sum(file, place);
    let shown = placed(rt, page, file, k, before, place, answer, sum, flags);
    Passed { shown, next }
}

// The line of the day of a number.
fn turn(
    rt: &impl Machine,
    page: &mut [u8],
    file: &[u8],
    k: usize,
    before: Under,
    from: DayStart,
) -> Passed
    requires { IsAccepted file.now × DayAhead file.now k from }
    ensures { DayAhead file.now (k + 1) result.next }
{
    let mut values = [0u64; MOST];
    let mut flags = [0u8; MOST];
    let mut methods = [0u8; MOST];
    let mut reasons = [0u16; MOST];
    let mut starts = [0usize; MOST];
    let mut lengths = [0usize; MOST];
    turn_in(
        rt,
        page,
        file,
        k,
        before,
        from,
        &mut values,
        &mut flags,
        &mut methods,
        &mut reasons,
        &mut starts,
        &mut lengths,
    )
}

// Day after day.
fn lines(rt: &impl Machine, page: &mut [u8], file: &[u8], days: usize, first: DayStart) -> u8
    requires { IsAccepted file.now × DayAhead file.now 0 first }
{
    let mut under = Under { at: 0, channel: 0 };
    let mut from = first;
    for k in 0..days {
        let t = turn(rt, page, file, k, under, from);
        let shown = t.shown;
        if shown.status != DONE {
            return shown.status;
        }
        under = shown.under;
        from = t.next;
    }
    DONE
}

fn headed(rt: &impl Machine, page: &mut [u8]) -> u8 {
    let p = headings(page, 0);
    let q = put(page, p, b"\n");
    write(rt, page, q)
}

pub fn show(rt: &impl Machine, page: &mut [u8], file: &[u8]) -> u8 {
    let noted = check_and_note(file, 0, 0);
    let answer = noted.answer;
    let first = noted.day;
    match answer {
        Ok(c) => {
            headed(rt, page);
            lines(rt, page, file, c.days, first)
        }
        Err(x) => {
            let p = explained(page, 0, file, x);
            warn(rt, page, p);
            REFUSED
        }
    }
}
