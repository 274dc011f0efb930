// A row for each day of a file, with its sum.
ghost use Rattle.std.specs.Prelude.{◌+◌};
ghost use Rattle.format.specs.File.{IsAccepted};
ghost use Rattle.day.specs.Places.{DayAhead, inside};

use super::sheet::{Passed, Sheet, behind};
use csv_rows::rows::{daily, daily_heading, front};
use day::head::head_at;
use day::walk::find_day;
use day::{DayStart, Place};
use machine::Machine;
use outward::{DONE, write};
use page::texts::part;
use records::{NMI, SUFFIX, UNIT_OF_200, field};
use sums::day_sum;

// The row of a day, whose 200 is given.
fn row(
    rt: &impl Machine,
    page: &mut [u8],
    at: usize,
    channel: &[u8],
    date: u32,
    sum: u64,
) -> Sheet {
    let mut head = [0u8; 64];
    let h = front(
        &mut head,
        0,
        field(channel, NMI),
        field(channel, SUFFIX),
        field(channel, UNIT_OF_200),
    );
    let p = daily(page, at, part(&head, 0, h), date as u64, sum);
    behind(rt, page, p)
}

// The row of the day at a place.
fn placed(
    rt: &impl Machine,
    page: &mut [u8],
    at: usize,
    file: &[u8],
    place: Option<Place>,
    sum: u64,
) -> Sheet
    requires { inside file.now place }
{
    match place {
        Some(day) => {
            let head = head_at(file, day.at, day.end);
            row(
                rt,
                page,
                at,
                part(file, day.under.at, day.under.end),
                head.date,
                sum,
            )
        }
        None => Sheet { at, status: DONE },
    }
}

// The row of the day of a number.
fn turn(
    rt: &impl Machine,
    page: &mut [u8],
    at: usize,
    file: &[u8],
    k: usize,
    from: DayStart,
) -> Passed
    requires { IsAccepted file.now × DayAhead file.now k from }
    ensures { DayAhead file.now (k + 1) result.next }
{
    let place = find_day(file, k, from);
    let sum = day_sum(file, place);
    let next = day::walk::behind(file, place);
    let sheet = placed(rt, page, at, file, place, sum);
    Passed { sheet, next }
}

// Day after day.
pub fn show(rt: &impl Machine, page: &mut [u8], file: &[u8], days: usize, first: DayStart) -> u8
    requires { IsAccepted file.now × DayAhead file.now 0 first }
{
    let mut at = daily_heading(page, 0);
    let mut from = first;
    for k in 0..days {
        let t = turn(rt, page, at, file, k, from);
        let sheet = t.sheet;
        if sheet.status != DONE {
            return sheet.status;
        }
        at = sheet.at;
        from = t.next;
    }
    write(rt, page, at)
}
