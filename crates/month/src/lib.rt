// Reads several days of a file in one call.
#![tactic(auto)]

ghost use Rattle.std.specs.Prelude.{◌≡◌, ◌+◌, ◌-◌};
ghost use Rattle.format.specs.Day.{five};
ghost use Rattle.format.specs.File.{IsAccepted};
ghost use Rattle.day.specs.Places.{DayAhead};
ghost use Rattle.months.specs.Month.{days_read_as, daily, lent, in_turn, days_left, wholly, month_of};

use checking::tour::check_and_note;
use day::DayStart;
use format::Refusal;
use month_lists::fill_days;
use month_room::{fault, shortest};
use months::DaysRead;

// The days of an accepted file. Whether all of them have their places is known before the first is written.
fn read_checked(
    file: &[u8],
    first: usize,
    last: usize,
    from: DayStart,
    values: &mut [u64],
    flags: &mut [u8],
    methods: &mut [u8],
    reasons: &mut [u16],
    starts: &mut [usize],
    lengths: &mut [usize],
    dates: &mut [u32],
    counts: &mut [usize],
    updates: &mut [u64],
    loads: &mut [u64],
    units: &mut [u8],
) -> Result<DaysRead, Refusal>
    requires { IsAccepted file.now × DayAhead file.now first from }
    ensures { days_left (days_read_as result) (lent values.new (five flags.new methods.new reasons.new starts.new lengths.new) (daily dates.new counts.new updates.new loads.new units.new)) ≡ wholly (in_turn file.now (last + 1 - first) first (lent values.old (five flags.old methods.old reasons.old starts.old lengths.old) (daily dates.old counts.old updates.old loads.old units.old))) (lent values.old (five flags.old methods.old reasons.old starts.old lengths.old) (daily dates.old counts.old updates.old loads.old units.old)) }
{
    if last < first {
        return Ok(DaysRead {
            days: 0,
            intervals: 0,
        });
    }
    let room = shortest(
        values.len(),
        flags.len(),
        methods.len(),
        reasons.len(),
        starts.len(),
        lengths.len(),
    );
    let places = shortest(
        dates.len(),
        counts.len(),
        updates.len(),
        loads.len(),
        units.len(),
        units.len(),
    );
    let number = fault(file, first, last, from, room, places);
    if number != 0 {
        return Err(Refusal::bare(number));
    }
    let f = fill_days(
        file, first, last, from, values, flags, methods, reasons, starts, lengths, dates, counts,
        updates, loads, units,
    );
    Ok(DaysRead {
        days: f.days,
        intervals: f.intervals,
    })
}

// Reads the days of the numbers from first to last, both from 0, one behind the other: into six lists, one element an interval, as `read_day` has them, and into five
// lists, one element a day: dates, how many intervals, update times, load times, units. The file's own refusal comes first, then that of the lowest day that is
// refused: 14 if there is no such day, 15 if a list has no place left for it. A refusal leaves every list as it was, and so does a first day above the last of an
// accepted file, which is no refusal; places behind the days keep what they held.
pub fn read_days(
    file: &[u8],
    first: usize,
    last: usize,
    values: &mut [u64],
    flags: &mut [u8],
    methods: &mut [u8],
    reasons: &mut [u16],
    starts: &mut [usize],
    lengths: &mut [usize],
    dates: &mut [u32],
    counts: &mut [usize],
    updates: &mut [u64],
    loads: &mut [u64],
    units: &mut [u8],
) -> Result<DaysRead, Refusal>
    ensures { days_left (days_read_as result) (lent values.new (five flags.new methods.new reasons.new starts.new lengths.new) (daily dates.new counts.new updates.new loads.new units.new)) ≡ month_of file.now first last (lent values.old (five flags.old methods.old reasons.old starts.old lengths.old) (daily dates.old counts.old updates.old loads.old units.old)) }
{
    let t = check_and_note(file, first, 0);
    t.answer?;
    read_checked(
        file, first, last, t.day, values, flags, methods, reasons, starts, lengths, dates, counts,
        updates, loads, units,
    )
}
