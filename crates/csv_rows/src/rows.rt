// The lines of the tables: headings, a row for an interval, for a read and for a day.
ghost use Rattle.std.specs.Prelude.{[], ◌∷◌, ◌++◌};
ghost use Rattle.format.specs.Block.{value_text, quality_text, reason_text};
ghost use Rattle.page.specs.Filled.{Filled};
ghost use Rattle.phrase.specs.Phrases.{date_text};
ghost use Rattle.cells.specs.Cells.{field_text, cell_text};
ghost use Rattle.csv_rows.specs.Times.{seconds_text};
ghost use Rattle.csv_rows.specs.Rows.{heading as Rows·heading, daily_heading, front_text, interval_text, reading_text, daily_text};

use super::times::seconds;
use cells::moments::span;
use cells::quotes::cell;
use page::texts::{number, put, value};
use phrase::times::date;

const NO_METHOD: u8 = 255;

const NO_REASON: u16 = 65535;

pub fn heading(page: &mut [u8], at: usize) -> usize
    ensures { Filled page.old at Rows·heading result page.new }
{
    put(
        page,
        at,
        b"nmi,suffix,unit,start,end,value,quality,reason,description\n",
    )
}

pub fn daily_heading(page: &mut [u8], at: usize) -> usize
    ensures { Filled page.old at daily_heading result page.new }
{
    put(page, at, b"nmi,suffix,unit,date,sum\n")
}

// ---- what rows have in common

fn field(page: &mut [u8], at: usize, text: &[u8]) -> usize
    ensures { Filled page.old at (field_text text.now) result page.new }
{
    let p = put(page, at, text);
    put(page, p, b",")
}

// What each row of a channel starts with. A program makes it once for all of them.
pub fn front(page: &mut [u8], at: usize, nmi: &[u8], suffix: &[u8], unit: &[u8]) -> usize
    ensures { Filled page.old at (front_text nmi.now suffix.now unit.now) result page.new }
{
    let p = field(page, at, nmi);
    let q = field(page, p, suffix);
    field(page, q, unit)
}

fn amount(page: &mut [u8], at: usize, v: u64) -> usize
    ensures { Filled page.old at (field_text (value_text v)) result page.new }
{
    let p = value(page, at, v);
    put(page, p, b",")
}

// The description and the line's end.
fn ending(page: &mut [u8], at: usize, text: &[u8]) -> usize
    ensures { Filled page.old at (cell_text text.now ++ 10 ∷ []) result page.new }
{
    let p = cell(page, at, text);
    put(page, p, b"\n")
}

// ---- an interval

// A flag and its method, as E52.
fn quality(page: &mut [u8], at: usize, flag: u8, method: u8) -> usize
    ensures { Filled page.old at (field_text (quality_text flag method)) result page.new }
{
    if method == NO_METHOD {
        put(page, at, &[flag, b','])
    } else {
        put(
            page,
            at,
            &[flag, b'0' + method / 10 % 10, b'0' + method % 10, b','],
        )
    }
}

fn reason(page: &mut [u8], at: usize, code: u16) -> usize
    ensures { Filled page.old at (field_text (reason_text code)) result page.new }
{
    if code == NO_REASON {
        return put(page, at, b",");
    }
    let p = number(page, at, code as u64);
    put(page, p, b",")
}

fn mark(page: &mut [u8], at: usize, flag: u8, method: u8, code: u16, text: &[u8]) -> usize
    ensures { Filled page.old at (field_text (quality_text flag method) ++ field_text (reason_text code) ++ (cell_text text.now ++ 10 ∷ [])) result page.new }
{
    let p = quality(page, at, flag, method);
    let q = reason(page, p, code);
    ending(page, q, text)
}

// Interval i from 0, of n in its day. `today` and `after` are the texts of its day and of the day after, each up to the clock.
pub fn interval(
    page: &mut [u8],
    at: usize,
    front: &[u8],
    today: &[u8],
    after: &[u8],
    i: usize,
    n: usize,
    value: u64,
    flag: u8,
    method: u8,
    reason: u16,
    text: &[u8],
) -> usize
    ensures { Filled page.old at (interval_text front.now today.now after.now i n value flag method reason text.now) result page.new }
{
    let p = put(page, at, front);
    let q = span(page, p, today, after, i, n);
    let r = amount(page, q, value);
    mark(page, r, flag, method, reason, text)
}

// ---- a read

fn times(page: &mut [u8], at: usize, from: u64, to: u64) -> usize
    ensures { Filled page.old at (field_text (seconds_text from) ++ field_text (seconds_text to)) result page.new }
{
    let p = seconds(page, at, from);
    let q = put(page, p, b",");
    let r = seconds(page, q, to);
    put(page, r, b",")
}

fn note(page: &mut [u8], at: usize, quality: &[u8], reason: &[u8], text: &[u8]) -> usize
    ensures { Filled page.old at (field_text quality.now ++ field_text reason.now ++ (cell_text text.now ++ 10 ∷ [])) result page.new }
{
    let p = field(page, at, quality);
    let q = field(page, p, reason);
    ending(page, q, text)
}

// A 250: from the previous read to the current one, and the current one's quality, reason and description.
pub fn reading(
    page: &mut [u8],
    at: usize,
    front: &[u8],
    from: u64,
    to: u64,
    value: u64,
    quality: &[u8],
    reason: &[u8],
    text: &[u8],
) -> usize
    ensures { Filled page.old at (reading_text front.now from to value quality.now reason.now text.now) result page.new }
{
    let p = put(page, at, front);
    let q = times(page, p, from, to);
    let r = amount(page, q, value);
    note(page, r, quality, reason, text)
}

// ---- a day

fn dated(page: &mut [u8], at: usize, d: u64) -> usize
    ensures { Filled page.old at (field_text (date_text d)) result page.new }
{
    let p = date(page, at, d);
    put(page, p, b",")
}

// A day, and what its values add up to.
pub fn daily(page: &mut [u8], at: usize, front: &[u8], date: u64, sum: u64) -> usize
    ensures { Filled page.old at (daily_text front.now date sum) result page.new }
{
    let p = put(page, at, front);
    let q = dated(page, p, date);
    let r = value(page, q, sum);
    put(page, r, b"\n")
}
