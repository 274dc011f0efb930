// Reads the day of a number into six lent lists, where the file was accepted; and day after day.
#![tactic(auto)]

ghost use Rattle.std.specs.Prelude.{◌≡◌, true, [], ◌∷◌, ◌+◌, drop, Ok};
ghost use Rattle.format.specs.Answers.{accepted, day_read_as};
ghost use Rattle.format.specs.Day.{five, outcome, read_into, read_first, read_of, days_of};
ghost use Rattle.passing.specs.Sound.{are_sound};
ghost use Rattle.day.specs.Places.{block_at, DayAhead, located, inside};
ghost use Rattle.format.specs.File.{IsAccepted};
ghost use Rattle.filling.specs.Fillable.{Here, Fillable, day_into};

use day::head::fill_top;
use day::walk::{behind, find_day, intervals_of, unit_of};
use day::{DayStart, Place};
use day_marks::put_marks;
use format::{DayRead, Refusal};
use lists::enough;

// What is answered of a day that was filled into lists, beside its n and its unit.
#[derive(Clone, Copy)]
pub struct Told {
    pub date: u32,
    pub update: u64,
    pub load: u64,
}

// Fills the lists with the day of n intervals in that unit whose 300 stands at a..e, and tells its date and times: nothing is left here that could fail.
pub fn fill_lists(
    file: &[u8],
    a: usize,
    e: usize,
    n: usize,
    unit: u8,
    values: &mut [u64],
    flags: &mut [u8],
    methods: &mut [u8],
    reasons: &mut [u16],
    starts: &mut [usize],
    lengths: &mut [usize],
) -> Told
    requires { Fillable file.now a e n unit values.old (five flags.old methods.old reasons.old starts.old lengths.old) }
    ensures { outcome (accepted (result.date ∷ n ∷ result.update ∷ result.load ∷ unit ∷ [])) values.new (five flags.new methods.new reasons.new starts.new lengths.new) ≡ read_into (block_at file.now a e n unit) values.old (five flags.old methods.old reasons.old starts.old lengths.old) }
{
    let t = fill_top(file, a, e, n, values);
    let tag = t.tag;
    let next = e + 2;
    put_marks(file, tag, next, n, flags, methods, reasons, starts, lengths);
    Told {
        date: t.date,
        update: t.update,
        load: t.load,
    }
}

// The same, as a reading answers it.
fn fill_day(
    file: &[u8],
    a: usize,
    e: usize,
    n: usize,
    unit: u8,
    values: &mut [u64],
    flags: &mut [u8],
    methods: &mut [u8],
    reasons: &mut [u16],
    starts: &mut [usize],
    lengths: &mut [usize],
) -> DayRead
    requires { Fillable file.now a e n unit values.old (five flags.old methods.old reasons.old starts.old lengths.old) }
    ensures { outcome (day_read_as (Ok result)) values.new (five flags.new methods.new reasons.new starts.new lengths.new) ≡ read_into (block_at file.now a e n unit) values.old (five flags.old methods.old reasons.old starts.old lengths.old) }
{
    let t = fill_lists(
        file, a, e, n, unit, values, flags, methods, reasons, starts, lengths,
    );
    DayRead {
        date: t.date,
        n,
        update: t.update,
        load: t.load,
        unit,
    }
}

// The same day, if the lists are long enough; else 15.
pub fn read_at(
    file: &[u8],
    a: usize,
    e: usize,
    n: usize,
    unit: u8,
    values: &mut [u64],
    flags: &mut [u8],
    methods: &mut [u8],
    reasons: &mut [u16],
    starts: &mut [usize],
    lengths: &mut [usize],
) -> Result<DayRead, Refusal>
    requires { Here file.now a e n unit }
    ensures { outcome (day_read_as result) values.new (five flags.new methods.new reasons.new starts.new lengths.new) ≡ day_into (block_at file.now a e n unit) values.old (five flags.old methods.old reasons.old starts.old lengths.old) }
{
    if !enough(
        n,
        values.len(),
        flags.len(),
        methods.len(),
        reasons.len(),
        starts.len(),
        lengths.len(),
    ) {
        return Err(Refusal::bare(15));
    }
    Ok(fill_day(
        file, a, e, n, unit, values, flags, methods, reasons, starts, lengths,
    ))
}

// The day at a place, if there is one.
fn read_place(
    file: &[u8],
    p: Option<Place>,
    values: &mut [u64],
    flags: &mut [u8],
    methods: &mut [u8],
    reasons: &mut [u16],
    starts: &mut [usize],
    lengths: &mut [usize],
) -> Result<DayRead, Refusal>
    requires { inside file.now p × (are_sound (located file.now p) ≡ true) }
    ensures { outcome (day_read_as result) values.new (five flags.new methods.new reasons.new starts.new lengths.new) ≡ read_first (located file.now p) values.old (five flags.old methods.old reasons.old starts.old lengths.old) }
{
    match p {
        None => Err(Refusal::bare(14)),
        Some(day) => read_at(
            file,
            day.at,
            day.end,
            intervals_of(file, day.under.at, day.under.end),
            unit_of(file, day.under.at, day.under.end),
            values,
            flags,
            methods,
            reasons,
            starts,
            lengths,
        ),
    }
}

// What a reading of a day answers, where the day stands, and from where the day behind it is found.
#[derive(Clone, Copy)]
pub struct DayTurn {
    pub answer: Result<DayRead, Refusal>,
    pub place: Option<Place>,
    pub next: DayStart,
}

// The day of a number from 0, in a file that was accepted: what `read_day` answers and leaves. Where it is found was noted by a walk that came by, or by
// this function at the day before, so that day after day is read and the file is checked once.
pub fn read_noted(
    file: &[u8],
    day: usize,
    from: DayStart,
    values: &mut [u64],
    flags: &mut [u8],
    methods: &mut [u8],
    reasons: &mut [u16],
    starts: &mut [usize],
    lengths: &mut [usize],
) -> DayTurn
    requires { IsAccepted file.now × DayAhead file.now day from }
    ensures is { outcome (day_read_as result.answer) values.new (five flags.new methods.new reasons.new starts.new lengths.new) ≡ read_of file.now day values.old (five flags.old methods.old reasons.old starts.old lengths.old) }
    ensures place { located file.now result.place ≡ drop day (days_of file.now) }
    ensures inside { inside file.now result.place }
    ensures next { DayAhead file.now (day + 1) result.next }
{
    let place = find_day(file, day, from);
    let next = behind(file, place);
    let answer = read_place(
        file, place, values, flags, methods, reasons, starts, lengths,
    );
    DayTurn {
        answer,
        place,
        next,
    }
}
