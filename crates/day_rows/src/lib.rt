// A day of a file in lines for people: its table, or why there is none.
#![tactic(auto)]

ghost use Rattle.std.specs.Prelude.{◌≡◌};
ghost use Rattle.format.specs.File.{check_of};
ghost use Rattle.page.specs.Filled.{Filled};
ghost use Rattle.day_rows.specs.Shown.{days_there, file_has, no_day, no_such_day, no_day_text, refused_text, interval_row, top_text, minutes_of};

use checking::check::check;
use explain::refused::explained;
use format::{DayHead, Refusal};
use page::items::{u8_at, u16_at, u64_at, usize_at};
use page::texts::{number, part, put};
use phrase::counts::counted;
use records::text_at;
use tables::days::{headings, row, title};

// ---- refused

// How many days there are to ask for.
fn days_there(page: &mut [u8], at: usize, days: usize) -> usize
    ensures { Filled page.old at (days_there days) result page.new }
{
    if days == 0 {
        return put(page, at, b"none");
    }
    let p = counted(page, at, days as u64, b"day");
    put(page, p, b", numbered from 0")
}

fn file_has(page: &mut [u8], at: usize, days: usize) -> usize
    ensures { Filled page.old at (file_has days) result page.new }
{
    let p = put(page, at, b"the file has ");
    let q = days_there(page, p, days);
    put(page, q, b"\n")
}

fn no_day(page: &mut [u8], days: usize) -> usize
    ensures { Filled page.old 0 (no_day days) result page.new }
{
    let p = put(page, 0, b"refused: 14, no such day: the file has ");
    let q = days_there(page, p, days);
    put(page, q, b"\n")
}

// That a file of so many days has none of that number, where several were asked for.
pub fn no_such_day(page: &mut [u8], day: usize, days: usize) -> usize
    ensures { Filled page.old 0 (no_such_day day days) result page.new }
{
    let p = put(page, 0, b"refused: 14, no such day: ");
    let q = number(page, p, day as u64);
    let r = put(page, q, b"; ");
    file_has(page, r, days)
}

fn no_day_in(page: &mut [u8], file: &[u8]) -> usize
    ensures { Filled page.old 0 (no_day_text file.now (check_of file.now)) result page.new }
{
    let x = check(file);
    match x {
        Ok(c) => no_day(page, c.days),
        Err(y) => explained(page, 0, file, y),
    }
}

// Why there is no day; of 14, which days there are too.
pub fn refused(page: &mut [u8], file: &[u8], x: Refusal) -> usize
    ensures { Filled page.old 0 (refused_text file.now x) result page.new }
{
    if x.number != 14 {
        explained(page, 0, file, x)
    } else {
        no_day_in(page, file)
    }
}

// ---- the table

// Interval i of the lists. Its line has room for a number up to 288, and no day has more intervals.
pub fn interval(
    page: &mut [u8],
    file: &[u8],
    i: usize,
    n: usize,
    values: &[u64],
    flags: &[u8],
    methods: &[u8],
    reasons: &[u16],
    starts: &[usize],
    lengths: &[usize],
) -> usize
    ensures { Filled page.old 0 (interval_row file.now i n values.now flags.now methods.now reasons.now starts.now lengths.now) result page.new }
{
    let k = i as u64 % 288 + 1;
    let text = text_at(file, usize_at(starts, i), usize_at(lengths, i));
    let p = row(
        page,
        0,
        k,
        n,
        u64_at(values, i),
        u8_at(flags, i),
        u8_at(methods, i),
        u16_at(reasons, i),
        text,
    );
    put(page, p, b"\n")
}

pub fn top(page: &mut [u8], day: DayHead, n: usize) -> usize
    ensures { Filled page.old 0 (top_text day n) result page.new }
{
    let p = title(page, 0, day, n);
    let q = put(page, p, b"\n");
    let r = headings(page, q);
    put(page, r, b"\n")
}

// The minutes of an interval, n of which make a day.
pub fn minutes(n: usize) -> u32
    ensures { result ≡ minutes_of n }
{
    match n {
        288 => 5,
        96 => 15,
        _ => 30,
    }
}
