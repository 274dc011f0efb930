// Whether the lists of a month hold, behind what was read, what they were filled with.
ghost use Rattle.std.specs.Prelude.{◌≡◌, ◌&&◌};
ghost use Rattle.format.specs.Day.{five};
ghost use Rattle.calls.specs.Kept.{kept, kept_all};
ghost use Rattle.months.specs.Month.{daily};
ghost use Rattle.month_calls.specs.Lines.{date_mark, kept_daily};

use calls::files::{BYTE_MARK, SIZE_MARK, WIDE_MARK, are_kept};
use calls::kept::{bytes, sizes, wide};

// What each place of a lent list of dates is filled with: no date.
pub const DATE_MARK: u32 = 2779096485;

fn dates_kept(list: &[u32], from: usize) -> bool
    ensures { result ≡ kept date_mark from list.now }
{
    list.iter().skip(from).all(|x| *x == DATE_MARK)
}

// The five lists of one place a day, from place d on.
#[tactic(auto, unfolding(crate::specs::Lines::kept_daily))]
fn daily_kept(
    d: usize,
    dates: &[u32],
    counts: &[usize],
    updates: &[u64],
    loads: &[u64],
    units: &[u8],
) -> bool
    ensures { result ≡ kept_daily d (daily dates.now counts.now updates.now loads.now units.now) }
{
    dates_kept(dates, d)
        && sizes(counts, d, SIZE_MARK)
        && wide(updates, d, WIDE_MARK)
        && wide(loads, d, WIDE_MARK)
        && bytes(units, d, BYTE_MARK)
}

// The six long lists from place k on, and the others from place d on.
pub fn all_kept(
    k: usize,
    values: &[u64],
    flags: &[u8],
    methods: &[u8],
    reasons: &[u16],
    starts: &[usize],
    lengths: &[usize],
    d: usize,
    dates: &[u32],
    counts: &[usize],
    updates: &[u64],
    loads: &[u64],
    units: &[u8],
) -> bool
    ensures { result ≡ (kept_all k values.now (five flags.now methods.now reasons.now starts.now lengths.now) && kept_daily d (daily dates.now counts.now updates.now loads.now units.now)) }
{
    are_kept(k, values, flags, methods, reasons, starts, lengths)
        && daily_kept(d, dates, counts, updates, loads, units)
}
