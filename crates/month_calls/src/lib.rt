// The call that reads several days, as the probe makes it. The answer and its days are put on a page, as `calls` does it. The intervals, which can be more than a page
// holds, stay in the lists for the caller to put behind them; what ends the line is known here: whether the lists are kept behind what was read.
#![tactic(auto)]

pub mod kept;
mod said_lines;

ghost use Rattle.std.specs.Prelude.{◌≡◌};
ghost use Rattle.format.specs.Day.{five};
ghost use Rattle.page.specs.Filled.{Filled};
ghost use Rattle.calls.specs.Lines.{intervals_in};
ghost use Rattle.months.specs.Month.{daily, lent, days_read_as, days_left, month_of};
ghost use Rattle.month_calls.specs.Lines.{days_in, days_text, kept_behind};

use format::Refusal;
use kept::all_kept;
use month::read_days;
use months::DaysRead;

// The place behind the days on the page, how many intervals come behind them, and whether the lists are kept.
#[derive(Clone, Copy)]
pub struct Begun {
    pub at: usize,
    pub intervals: usize,
    pub kept: bool,
}

fn days_in(x: Result<DaysRead, Refusal>) -> usize
    ensures { result ≡ days_in (days_read_as x) }
{
    match x {
        Ok(d) => d.days,
        Err(_) => 0,
    }
}

fn intervals_in(x: Result<DaysRead, Refusal>) -> usize
    ensures { result ≡ intervals_in (days_read_as x) }
{
    match x {
        Ok(d) => d.intervals,
        Err(_) => 0,
    }
}

// The answer and its days, from what the lists hold.
fn days_shown(
    page: &mut [u8],
    at: usize,
    x: Result<DaysRead, Refusal>,
    values: &[u64],
    flags: &[u8],
    methods: &[u8],
    reasons: &[u16],
    starts: &[usize],
    lengths: &[usize],
    dates: &[u32],
    counts: &[usize],
    updates: &[u64],
    loads: &[u64],
    units: &[u8],
) -> Begun
    ensures line { Filled page.old at (days_text (days_left (days_read_as x) (lent values.now (five flags.now methods.now reasons.now starts.now lengths.now) (daily dates.now counts.now updates.now loads.now units.now)))) result.at page.new }
    ensures intervals { result.intervals ≡ intervals_in (days_read_as x) }
    ensures kept { result.kept ≡ kept_behind (days_left (days_read_as x) (lent values.now (five flags.now methods.now reasons.now starts.now lengths.now) (daily dates.now counts.now updates.now loads.now units.now))) }
{
    let d = days_in(x);
    let k = intervals_in(x);
    let p = said_lines::days_read(page, at, x);
    let q = said_lines::days(page, p, d, dates, counts, updates, loads, units);
    Begun {
        at: q,
        intervals: k,
        kept: all_kept(
            k, values, flags, methods, reasons, starts, lengths, d, dates, counts, updates, loads,
            units,
        ),
    }
}

// The days of the numbers from first to last, into lists that hold their marks.
pub fn begin_line(
    file: &[u8],
    first: usize,
    last: usize,
    page: &mut [u8],
    at: usize,
    values: &mut [u64],
    flags: &mut [u8],
    methods: &mut [u8],
    reasons: &mut [u16],
    starts: &mut [usize],
    lengths: &mut [usize],
    dates: &mut [u32],
    counts: &mut [usize],
    updates: &mut [u64],
    loads: &mut [u64],
    units: &mut [u8],
) -> Begun
    ensures line { Filled page.old at (days_text (month_of file.now first last (lent values.old (five flags.old methods.old reasons.old starts.old lengths.old) (daily dates.old counts.old updates.old loads.old units.old)))) result.at page.new }
    ensures intervals { result.intervals ≡ intervals_in (month_of file.now first last (lent values.old (five flags.old methods.old reasons.old starts.old lengths.old) (daily dates.old counts.old updates.old loads.old units.old))).answer }
    ensures kept { result.kept ≡ kept_behind (month_of file.now first last (lent values.old (five flags.old methods.old reasons.old starts.old lengths.old) (daily dates.old counts.old updates.old loads.old units.old))) }
    ensures left { lent values.new (five flags.new methods.new reasons.new starts.new lengths.new) (daily dates.new counts.new updates.new loads.new units.new) ≡ (month_of file.now first last (lent values.old (five flags.old methods.old reasons.old starts.old lengths.old) (daily dates.old counts.old updates.old loads.old units.old))).lists }
{
    let x = read_days(
        file, first, last, values, flags, methods, reasons, starts, lengths, dates, counts,
        updates, loads, units,
    );
    days_shown(
        page, at, x, values, flags, methods, reasons, starts, lengths, dates, counts, updates,
        loads, units,
    )
}
