// The line in which each answer is given.
ghost use Rattle.page.specs.Filled.{Filled};
ghost use Rattle.whose.specs.Whose.{day_found_as};
ghost use Rattle.replacing.specs.Replace.{replaced_as};
ghost use Rattle.answer_lines.specs.Lines.{line_of};

use answer_lines::answers::{accepted, refusal};
use format::Refusal;
use whose::DayFound;

pub fn found(page: &mut [u8], at: usize, x: Result<DayFound, Refusal>) -> usize
    ensures { Filled page.old at (line_of (day_found_as x)) result page.new }
{
    match x {
        Ok(d) => accepted(
            page,
            at,
            &[
                d.channel as u64,
                d.nmi as u64,
                d.suffix as u64,
                u64::from(d.unit),
                u64::from(d.length),
                d.start as u64,
                d.end as u64,
            ],
        ),
        Err(x) => refusal(page, at, x),
    }
}

pub fn replaced(page: &mut [u8], at: usize, x: Result<usize, Refusal>) -> usize
    ensures { Filled page.old at (line_of (replaced_as x)) result page.new }
{
    match x {
        Ok(n) => accepted(page, at, &[n as u64]),
        Err(x) => refusal(page, at, x),
    }
}
