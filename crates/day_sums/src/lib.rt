// A day of a file as a splitting needs it: the NMI and the suffix of its channel, its date, and what its values add up to. The file is checked once.
#![tactic(auto)]

ghost use Rattle.std.specs.Prelude.{◌≡◌};
ghost use Rattle.ground.specs.Lists.{sum};
ghost use Rattle.format.specs.Cut.{field};
ghost use Rattle.format.specs.Records.{date_in};
ghost use Rattle.format.specs.File.{IsAccepted};
ghost use Rattle.format.specs.Day.{values_of};
ghost use Rattle.day.specs.Places.{DayAhead};
ghost use Rattle.whose.specs.Whose.{nmi_field, suffix_field};
ghost use Rattle.day_sums.specs.Sought.{day_in, rows_of, sought_as, Within, within_as};

use checking::tour::check_and_note;
use day::fields::skip;
use day::head::head_at;
use day::walk::{find_day, intervals_of};
use day::{DayStart, Under};
use format::Refusal;
use lines::pieces::first_field;
use sums::add_day;

// The fields of a 200 that name its channel, by their numbers from 0.
const NMI: usize = 1;

const SUFFIX: usize = 4;

// Where the 300 of a day starts and ends, and the 200 that it stands under.
#[derive(Clone, Copy)]
pub struct DayAt {
    pub start: usize,
    pub end: usize,
    pub under: Under,
}

// The day of a number from 0, in a file that was accepted, where a walk that came by has noted from where it is found.
fn seek_noted(file: &[u8], day: usize, from: DayStart) -> Result<DayAt, Refusal>
    requires { IsAccepted file.now × DayAhead file.now day from }
    ensures is { sought_as file.now result ≡ day_in file.now day }
    ensures within { within_as file.now result }
{
    let place = find_day(file, day, from);
    match place {
        None => Err(Refusal::bare(14)),
        Some(p) => Ok(DayAt {
            start: p.at,
            end: p.end,
            under: p.under,
        }),
    }
}

// The day of a number from 0. The file's own refusal comes first, then 14 if there is no such day.
pub fn seek_day(file: &[u8], day: usize) -> Result<DayAt, Refusal>
    ensures is { sought_as file.now result ≡ day_in file.now day }
    ensures within { within_as file.now result }
{
    let t = check_and_note(file, day, 0);
    t.answer?;
    seek_noted(file, day, t.day)
}

// A field of the day's 200, by its number from 0.
fn channel_field(file: &[u8], day: DayAt, i: usize) -> &[u8]
    requires { Within file.now day }
    ensures { result.now ≡ field i (rows_of file.now day).channel.cells }
{
    let at = day.under.at;
    let end = day.under.end;
    let x = skip(file, at, end, i);
    first_field(file, x, end)
}

pub fn nmi_of(file: &[u8], day: DayAt) -> &[u8]
    requires { Within file.now day }
    ensures { result.now ≡ field nmi_field (rows_of file.now day).channel.cells }
{
    channel_field(file, day, NMI)
}

pub fn suffix_of(file: &[u8], day: DayAt) -> &[u8]
    requires { Within file.now day }
    ensures { result.now ≡ field suffix_field (rows_of file.now day).channel.cells }
{
    channel_field(file, day, SUFFIX)
}

pub fn date_of(file: &[u8], day: DayAt) -> u32
    requires { Within file.now day }
    ensures { result ≡ date_in (rows_of file.now day).block.top.cells }
{
    let head = head_at(file, day.start, day.end);
    head.date
}

// What its values add up to.
pub fn sum_of(file: &[u8], day: DayAt) -> u64
    requires { Within file.now day }
    ensures { result ≡ sum (values_of (rows_of file.now day).block) }
{
    let n = intervals_of(file, day.under.at, day.under.end);
    add_day(file, day.start, day.end, n)
}
