// A row for each interval of a NEM12 file.
ghost use Rattle.std.specs.Prelude.{◌+◌};
ghost use Rattle.format.specs.File.{IsAccepted};
ghost use Rattle.day.specs.Places.{DayAhead};

use super::sheet::{Passed, Sheet, behind};
use csv_rows::rows::{front, heading, interval};
use csv_rows::times::day;
use date_rules::calendar::day_after;
use day::{DayStart, Place};
use filling::read_noted;
use format::{DayRead, Refusal};
use machine::Machine;
use outward::{DONE, write};
use page::items::{u8_at, u16_at, u64_at, usize_at};
use page::texts::part;
use records::{NMI, SUFFIX, UNIT_OF_200, field, text_at};

const MOST: usize = 288;

// The row of interval i, behind what the rows of its day have in common.
fn row(
    rt: &impl Machine,
    page: &mut [u8],
    at: usize,
    file: &[u8],
    front: &[u8],
    today: &[u8],
    after: &[u8],
    i: usize,
    n: usize,
    values: &[u64],
    flags: &[u8],
    methods: &[u8],
    reasons: &[u16],
    starts: &[usize],
    lengths: &[usize],
) -> Sheet {
    let p = interval(
        page,
        at,
        front,
        today,
        after,
        i,
        n,
        u64_at(values, i),
        u8_at(flags, i),
        u8_at(methods, i),
        u16_at(reasons, i),
        text_at(file, usize_at(starts, i), usize_at(lengths, i)),
    );
    behind(rt, page, p)
}

// The rows of a day's intervals.
fn rows(
    rt: &impl Machine,
    page: &mut [u8],
    from: usize,
    file: &[u8],
    front: &[u8],
    today: &[u8],
    after: &[u8],
    n: usize,
    values: &[u64],
    flags: &[u8],
    methods: &[u8],
    reasons: &[u16],
    starts: &[usize],
    lengths: &[usize],
) -> Sheet {
    let mut at = from;
    for i in 0..n {
        let sheet = row(
            rt, page, at, file, front, today, after, i, n, values, flags, methods, reasons, starts,
            lengths,
        );
        if sheet.status != DONE {
            return sheet;
        }
        at = sheet.at;
    }
    Sheet { at, status: DONE }
}

// The rows of a day, whose 200 is given.
fn day_rows(
    rt: &impl Machine,
    page: &mut [u8],
    at: usize,
    file: &[u8],
    channel: &[u8],
    date: u32,
    n: usize,
    values: &[u64],
    flags: &[u8],
    methods: &[u8],
    reasons: &[u16],
    starts: &[usize],
    lengths: &[usize],
) -> Sheet {
    let mut head = [0u8; 64];
    let h = front(
        &mut head,
        0,
        field(channel, NMI),
        field(channel, SUFFIX),
        field(channel, UNIT_OF_200),
    );
    let mut today = [0u8; 32];
    let t = day(&mut today, 0, date as u64);
    let mut after = [0u8; 32];
    let a = day(&mut after, 0, day_after(date as u64));
    rows(
        rt,
        page,
        at,
        file,
        part(&head, 0, h),
        part(&today, 0, t),
        part(&after, 0, a),
        n,
        values,
        flags,
        methods,
        reasons,
        starts,
        lengths,
    )
}

// The day at a place, as it was read.
fn placed(
    rt: &impl Machine,
    page: &mut [u8],
    at: usize,
    file: &[u8],
    place: Option<Place>,
    x: Result<DayRead, Refusal>,
    values: &[u64],
    flags: &[u8],
    methods: &[u8],
    reasons: &[u16],
    starts: &[usize],
    lengths: &[usize],
) -> Sheet {
    let Some(day) = place else {
        return Sheet { at, status: DONE };
    };
    let Ok(read) = x else {
        return Sheet { at, status: DONE };
    };
    day_rows(
        rt,
        page,
        at,
        file,
        part(file, day.under.at, day.under.end),
        read.date,
        read.n,
        values,
        flags,
        methods,
        reasons,
        starts,
        lengths,
    )
}

// The rows of the day of a number, read into lent lists.
fn turn_in(
    rt: &impl Machine,
    page: &mut [u8],
    at: usize,
    file: &[u8],
    k: usize,
    from: DayStart,
    values: &mut [u64],
    flags: &mut [u8],
    methods: &mut [u8],
    reasons: &mut [u16],
    starts: &mut [usize],
    lengths: &mut [usize],
) -> Passed
    requires { IsAccepted file.now × DayAhead file.now k from }
    ensures { DayAhead file.now (k + 1) result.next }
{
    let t = read_noted(
        file, k, from, values, flags, methods, reasons, starts, lengths,
    );
    let place = t.place;
    let answer = t.answer;
    let next = t.next;
    let sheet = placed(
        rt, page, at, file, place, answer, values, flags, methods, reasons, starts, lengths,
    );
    Passed { sheet, next }
}

// The rows of the day of a number.
fn turn(
    rt: &impl Machine,
    page: &mut [u8],
    at: usize,
    file: &[u8],
    k: usize,
    from: DayStart,
) -> Passed
    requires { IsAccepted file.now × DayAhead file.now k from }
    ensures { DayAhead file.now (k + 1) result.next }
{
    let mut values = [0u64; MOST];
    let mut flags = [0u8; MOST];
    let mut methods = [0u8; MOST];
    let mut reasons = [0u16; MOST];
    let mut starts = [0usize; MOST];
    let mut lengths = [0usize; MOST];
    turn_in(
        rt,
        page,
        at,
        file,
        k,
        from,
        &mut values,
        &mut flags,
        &mut methods,
        &mut reasons,
        &mut starts,
        &mut lengths,
    )
}

// Day after day.
pub fn show(rt: &impl Machine, page: &mut [u8], file: &[u8], days: usize, first: DayStart) -> u8
    requires { IsAccepted file.now × DayAhead file.now 0 first }
{
    let mut at = heading(page, 0);
    let mut from = first;
    for k in 0..days {
        let t = turn(rt, page, at, file, k, from);
        let sheet = t.sheet;
        if sheet.status != DONE {
            return sheet.status;
        }
        at = sheet.at;
        from = t.next;
    }
    write(rt, page, at)
}
