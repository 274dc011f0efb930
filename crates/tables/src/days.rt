// A day as a table: its title, and a line for each interval.
ghost use Rattle.std.specs.Prelude.{◌≡◌, ◌≤◌};
ghost use Rattle.page.specs.Filled.{Filled};
ghost use Rattle.tables.specs.Days.{dated_text, intervals_text, loaded_text, title_text, headings as Days·headings, end_of, end_text, front_text, method_text, quality_text, quality_name_text, reason_text, description_text, mark_text, row_text};

use format::DayHead;
use page::texts::{number, put};
use phrase::columns::{cell, point, right};
use phrase::times::{clock, date, time, two};
use words::qualities::name;

// Where the columns of the table start, or, of numbers, end.
const NUMBER: usize = 3;

const ENDS: usize = 4;

const POINT: usize = 18;

const QUALITY: usize = 27;

const QUALITY_NAME: usize = 32;

const REASON: usize = 51;

const DESCRIPTION: usize = 59;

const NO_METHOD: u8 = 255;

const NO_REASON: u16 = 65535;

// ---- the lines above the intervals

fn intervals(page: &mut [u8], at: usize, n: usize, minutes: u64) -> usize
    ensures { Filled page.old at (intervals_text n minutes) result page.new }
{
    let p = number(page, at, n as u64);
    let q = put(page, p, b" intervals of ");
    let r = number(page, q, minutes);
    put(page, r, b" minutes, updated ")
}

fn loaded(page: &mut [u8], at: usize, load: u64) -> usize
    ensures { Filled page.old at (loaded_text load) result page.new }
{
    if load == 0 {
        return put(page, at, b"");
    }
    let p = put(page, at, b", loaded ");
    time(page, p, load)
}

fn dated(page: &mut [u8], at: usize, day: u64) -> usize
    ensures { Filled page.old at (dated_text day) result page.new }
{
    let p = date(page, at, day);
    put(page, p, b": ")
}

// The day's date, intervals and times.
pub fn title(page: &mut [u8], at: usize, day: DayHead, n: usize) -> usize
    ensures { Filled page.old at (title_text day n) result page.new }
{
    let p = dated(page, at, day.date as u64);
    let q = intervals(page, p, n, day.length as u64);
    let r = time(page, q, day.update);
    loaded(page, r, day.load)
}

pub fn headings(page: &mut [u8], at: usize) -> usize
    ensures { Filled page.old at Days·headings result page.new }
{
    put(
        page,
        at,
        b" no ends     value         quality                 reason  description",
    )
}

// ---- the line of an interval

// When interval k from 1 ends, of n in a day: in minutes.
fn end_of(k: u64, n: usize) -> u64
    requires { k ≤ 288 }
    ensures { result ≡ end_of k n }
{
    if n == 0 { 0 } else { k * 1440 / n as u64 }
}

fn ends(page: &mut [u8], at: usize, minutes: u64) -> usize
    ensures { Filled page.old at (end_text minutes at) result page.new }
{
    let p = cell(page, at, ENDS, b"");
    clock(page, p, minutes / 60, minutes % 60)
}

// The interval's number, when it ends, and its value.
fn front(page: &mut [u8], at: usize, k: u64, minutes: u64, value: u64) -> usize
    ensures { Filled page.old at (front_text k minutes value at) result page.new }
{
    let p = right(page, at, NUMBER, k);
    let q = ends(page, p, minutes);
    point(page, q, POINT, value)
}

fn method_digits(page: &mut [u8], at: usize, method: u8) -> usize
    ensures { Filled page.old at (method_text method) result page.new }
{
    if method == NO_METHOD {
        put(page, at, b"")
    } else {
        two(page, at, method as u64)
    }
}

// A flag and its method, as E52.
fn quality(page: &mut [u8], at: usize, flag: u8, method: u8) -> usize
    ensures { Filled page.old at (quality_text flag method at) result page.new }
{
    let p = cell(page, at, QUALITY, &[flag]);
    method_digits(page, p, method)
}

fn quality_name(page: &mut [u8], at: usize, flag: u8) -> usize
    ensures { Filled page.old at (quality_name_text flag at) result page.new }
{
    let p = cell(page, at, QUALITY_NAME, b"");
    name(page, p, flag)
}

fn reason(page: &mut [u8], at: usize, code: u16) -> usize
    ensures { Filled page.old at (reason_text code at) result page.new }
{
    if code == NO_REASON {
        return put(page, at, b"");
    }
    let p = cell(page, at, REASON, b"");
    number(page, p, code as u64)
}

fn description(page: &mut [u8], at: usize, text: &[u8]) -> usize
    ensures { Filled page.old at (description_text text.now at) result page.new }
{
    if text.is_empty() {
        put(page, at, b"")
    } else {
        cell(page, at, DESCRIPTION, text)
    }
}

fn mark(page: &mut [u8], at: usize, flag: u8, method: u8, code: u16, text: &[u8]) -> usize
    ensures { Filled page.old at (mark_text flag method code text.now at) result page.new }
{
    let p = quality(page, at, flag, method);
    let q = quality_name(page, p, flag);
    let r = reason(page, q, code);
    description(page, r, text)
}

// Interval k from 1, of n in its day.
pub fn row(
    page: &mut [u8],
    at: usize,
    k: u64,
    n: usize,
    value: u64,
    flag: u8,
    method: u8,
    code: u16,
    text: &[u8],
) -> usize
    requires { k ≤ 288 }
    ensures { Filled page.old at (row_text k n value flag method code text.now at) result page.new }
{
    let p = front(page, at, k, end_of(k, n), value);
    mark(page, p, flag, method, code, text)
}
