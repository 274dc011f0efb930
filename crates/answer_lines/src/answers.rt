// The line in which each answer is given.
ghost use Rattle.format.specs.Answers.{accepted as Answers·accepted};
ghost use Rattle.format.specs.Answers.{refused_as, checked_as, block_checked_as, day_read_as, totalled_as, written_as};
ghost use Rattle.page.specs.Filled.{Filled};
ghost use Rattle.answer_lines.specs.Lines.{line_of};

use super::numbers::numbers_behind;
use format::{BlockChecked, Checked, DayRead, Refusal, Written};
use page::texts::put;

pub fn accepted(page: &mut [u8], at: usize, list: &[u64]) -> usize
    ensures { Filled page.old at (line_of (Answers·accepted list.now)) result page.new }
{
    let p = put(page, at, b"accepted");
    numbers_behind(page, p, b' ', list)
}

pub fn refusal(page: &mut [u8], at: usize, x: Refusal) -> usize
    ensures { Filled page.old at (line_of (refused_as x)) result page.new }
{
    let p = put(page, at, b"refused");
    numbers_behind(
        page,
        p,
        b' ',
        &[x.number, x.place as u64, x.record as u64, x.field as u64],
    )
}

pub fn checked(page: &mut [u8], at: usize, x: Result<Checked, Refusal>) -> usize
    ensures { Filled page.old at (line_of (checked_as x)) result page.new }
{
    match x {
        Ok(c) => accepted(page, at, &[c.version, c.channels as u64, c.days as u64]),
        Err(x) => refusal(page, at, x),
    }
}

pub fn block_checked(page: &mut [u8], at: usize, x: Result<BlockChecked, Refusal>) -> usize
    ensures { Filled page.old at (line_of (block_checked_as x)) result page.new }
{
    match x {
        Ok(c) => accepted(
            page,
            at,
            &[
                c.date as u64,
                c.n as u64,
                c.update,
                c.load,
                c.records as u64,
            ],
        ),
        Err(x) => refusal(page, at, x),
    }
}

pub fn day_read(page: &mut [u8], at: usize, x: Result<DayRead, Refusal>) -> usize
    ensures { Filled page.old at (line_of (day_read_as x)) result page.new }
{
    match x {
        Ok(d) => accepted(
            page,
            at,
            &[d.date as u64, d.n as u64, d.update, d.load, d.unit as u64],
        ),
        Err(x) => refusal(page, at, x),
    }
}

pub fn totalled(page: &mut [u8], at: usize, x: Result<u64, Refusal>) -> usize
    ensures { Filled page.old at (line_of (totalled_as x)) result page.new }
{
    match x {
        Ok(v) => accepted(page, at, &[v]),
        Err(x) => refusal(page, at, x),
    }
}

pub fn written(page: &mut [u8], at: usize, x: Result<Written, Refusal>) -> usize
    ensures { Filled page.old at (line_of (written_as x)) result page.new }
{
    match x {
        Ok(w) => accepted(page, at, &[w.bytes as u64, w.records as u64]),
        Err(x) => refusal(page, at, x),
    }
}
