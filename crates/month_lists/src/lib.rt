// Fills the days of a call into its lists, day after day: each is lent its own stretch of the long lists. Nothing is left here that could fail.
#![tactic(auto)]

ghost use Rattle.std.specs.Prelude.{◌≡◌, true, [], ◌∷◌, ◌+◌, ◌-◌};
ghost use Rattle.format.specs.Answers.{accepted};
ghost use Rattle.format.specs.Day.{five, outcome};
ghost use Rattle.passing.specs.Sound.{are_sound};
ghost use Rattle.day.specs.Places.{block_at, located, inside};
ghost use Rattle.filling.specs.Fillable.{Here};
ghost use Rattle.months.specs.Month.{daily, lent, read, in_turn};
ghost use Rattle.month_room.specs.Room.{Long, Placed};
ghost use Rattle.month_lists.specs.Laid.{stretched, noted, n_first, laid_first, Reached, Fits};

use day::walk::{behind, find_day, intervals_of, unit_of};
use day::{DayStart, Place};
use filling::{Told, fill_lists};

// The day of n intervals whose 300 stands at a..e, into its stretch of the long lists, from place k on.
fn fill_stretch(
    file: &[u8],
    a: usize,
    e: usize,
    n: usize,
    unit: u8,
    k: usize,
    values: &mut [u64],
    flags: &mut [u8],
    methods: &mut [u8],
    reasons: &mut [u16],
    starts: &mut [usize],
    lengths: &mut [usize],
) -> Told
    requires { Here file.now a e n unit × Long (k + n) values.old (five flags.old methods.old reasons.old starts.old lengths.old) }
    ensures { outcome (accepted (result.date ∷ n ∷ result.update ∷ result.load ∷ unit ∷ [])) values.new (five flags.new methods.new reasons.new starts.new lengths.new) ≡ stretched (block_at file.now a e n unit) k values.old (five flags.old methods.old reasons.old starts.old lengths.old) }
{
    let end = k + n;
    fill_lists(
        file,
        a,
        e,
        n,
        unit,
        &mut values[k..end],
        &mut flags[k..end],
        &mut methods[k..end],
        &mut reasons[k..end],
        &mut starts[k..end],
        &mut lengths[k..end],
    )
}

// What is answered of a day, into the lists of one place a day.
fn note_day(
    t: Told,
    n: usize,
    unit: u8,
    i: usize,
    dates: &mut [u32],
    counts: &mut [usize],
    updates: &mut [u64],
    loads: &mut [u64],
    units: &mut [u8],
)
    requires { Placed (i + 1) (daily dates.old counts.old updates.old loads.old units.old) }
    ensures { daily dates.new counts.new updates.new loads.new units.new ≡ noted i t.date n t.update t.load unit (daily dates.old counts.old updates.old loads.old units.old) }
{
    dates[i] = t.date;
    counts[i] = n;
    updates[i] = t.update;
    loads[i] = t.load;
    units[i] = unit;
}

// The day at a place, where there is one: how many intervals it has.
fn fill_place(
    file: &[u8],
    p: Option<Place>,
    k: usize,
    i: usize,
    values: &mut [u64],
    flags: &mut [u8],
    methods: &mut [u8],
    reasons: &mut [u16],
    starts: &mut [usize],
    lengths: &mut [usize],
    dates: &mut [u32],
    counts: &mut [usize],
    updates: &mut [u64],
    loads: &mut [u64],
    units: &mut [u8],
) -> usize
    requires { inside file.now p × (are_sound (located file.now p) ≡ true) × Reached (k + n_first (located file.now p)) (i + 1) (lent values.old (five flags.old methods.old reasons.old starts.old lengths.old) (daily dates.old counts.old updates.old loads.old units.old)) }
    ensures n { result ≡ n_first (located file.now p) }
    ensures lists { lent values.new (five flags.new methods.new reasons.new starts.new lengths.new) (daily dates.new counts.new updates.new loads.new units.new) ≡ laid_first (located file.now p) k i (lent values.old (five flags.old methods.old reasons.old starts.old lengths.old) (daily dates.old counts.old updates.old loads.old units.old)) }
{
    match p {
        None => 0,
        Some(day) => {
            let n = intervals_of(file, day.under.at, day.under.end);
            let unit = unit_of(file, day.under.at, day.under.end);
            let t = fill_stretch(
                file, day.at, day.end, n, unit, k, values, flags, methods, reasons, starts, lengths,
            );
            note_day(t, n, unit, i, dates, counts, updates, loads, units);
            n
        }
    }
}

// How many days were filled, and how many intervals they have together.
#[derive(Clone, Copy)]
pub struct Filled {
    pub days: usize,
    pub intervals: usize,
}

// The days of a call, of which none is refused.
pub fn fill_days(
    file: &[u8],
    first: usize,
    last: usize,
    from: DayStart,
    values: &mut [u64],
    flags: &mut [u8],
    methods: &mut [u8],
    reasons: &mut [u16],
    starts: &mut [usize],
    lengths: &mut [usize],
    dates: &mut [u32],
    counts: &mut [usize],
    updates: &mut [u64],
    loads: &mut [u64],
    units: &mut [u8],
) -> Filled
    requires { Fits file.now first last from (lent values.old (five flags.old methods.old reasons.old starts.old lengths.old) (daily dates.old counts.old updates.old loads.old units.old)) }
    ensures { read result.days result.intervals (lent values.new (five flags.new methods.new reasons.new starts.new lengths.new) (daily dates.new counts.new updates.new loads.new units.new)) ≡ in_turn file.now (last + 1 - first) first (lent values.old (five flags.old methods.old reasons.old starts.old lengths.old) (daily dates.old counts.old updates.old loads.old units.old)) }
{
    let mut at = from;
    let mut k: usize = 0;
    let mut i: usize = 0;
    loop {
        let place = find_day(file, first + i, at);
        let next = behind(file, place);
        let n = fill_place(
            file, place, k, i, values, flags, methods, reasons, starts, lengths, dates, counts,
            updates, loads, units,
        );
        at = next;
        k += n;
        i += 1;
        if last - first < i {
            return Filled {
                days: i,
                intervals: k,
            };
        }
    }
}
