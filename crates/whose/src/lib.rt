// Whose day is it: of a day of a file its channel, where NMI and suffix stand, its unit and interval length, and where its block starts and ends.
#![tactic(auto)]

ghost use Rattle.std.specs.Prelude.{◌≡◌, ◌||◌, ◌≤◌, length, drop, eqb, Ok};
ghost use Rattle.ground.specs.Lists.{part};
ghost use Rattle.format.specs.Cut.{lines, fields};
ghost use Rattle.format.specs.File.{IsAccepted};
ghost use Rattle.day.specs.Places.{day_at, DayAhead};
ghost use Rattle.checking.specs.Tour.{ChannelsBefore};
ghost use Rattle.whose.specs.Whose.{minutes_in, under_end, whose_as, whose_is, day_found_as, find_of};
ghost use Rattle.whose.specs.Stands.{Stands};

use checking::tour::check_and_note;
use day::fields::skip;
use day::walk::unit_of;
use day::{DayStart, Place};
use format::Refusal;
use lines::line_end;
use lines::pieces::first_field;
use number_rules::interval_length;
use says::kind_at;

// What is found of a day. The channel has its number from 0, NMI and suffix are places in the file, the unit is its number in the table of units, the length
// is the interval's in minutes. The block starts at its 300 and ends behind the CR LF of its last record.
#[derive(Clone, Copy)]
pub struct DayFound {
    pub channel: usize,
    pub nmi: usize,
    pub suffix: usize,
    pub unit: u8,
    pub length: u32,
    pub start: usize,
    pub end: usize,
}

// The interval length of a 200.
fn minutes_of(file: &[u8], a: usize, e: usize) -> u32
    requires { (a ≤ e) × (e ≤ length file.now) }
    ensures { result ≡ minutes_in (fields (part file.now a e)) }
{
    let x = skip(file, a, e, 8);
    interval_length(first_field(file, x, e)).unwrap_or(0) as u32
}

// A 400 or a 500, which stand under a 300.
fn is_under(kind: u64) -> bool
    ensures { result ≡ (eqb kind 400 || eqb kind 500) }
{
    if kind == 400 {
        return true;
    }
    kind == 500
}

// Behind the 400s and 500s that stand at a place.
fn behind_under(file: &[u8], from: usize) -> usize
    requires { from ≤ length file.now }
    ensures { result ≡ under_end from (lines (drop from file.now)) }
{
    let mut at = from;
    loop {
        let e = line_end(file, at);
        if e == file.len() {
            return at;
        }
        let kind = kind_at(file, at, e);
        if !is_under(kind) {
            return at;
        }
        at = e + 2;
    }
}

// What is found of the day at a place, with so many channels before it.
fn found_at(file: &[u8], p: Place, before: usize) -> DayFound
    requires { Stands file.now p.at p.end p.under before }
    ensures { day_found_as (Ok result) ≡ whose_as (whose_is file.now (day_at file.now p.at p.end p.under)) }
{
    let at = p.under.at;
    let end = p.under.end;
    DayFound {
        channel: before - 1,
        nmi: skip(file, at, end, 1),
        suffix: skip(file, at, end, 4),
        unit: unit_of(file, at, end),
        length: minutes_of(file, at, end),
        start: p.at,
        end: behind_under(file, p.end + 2),
    }
}

// The same of the day of a number from 0, in a file that was accepted, where a walk that came by has noted from where the day is found, and how many channels
// stand before it.
fn found_noted(file: &[u8], day: usize, from: DayStart, before: usize) -> Result<DayFound, Refusal>
    requires { IsAccepted file.now × DayAhead file.now day from × ChannelsBefore file.now day before }
    ensures { day_found_as result ≡ find_of file.now day }
{
    let place = day::walk::find_day(file, day, from);
    match place {
        None => Err(Refusal::bare(14)),
        Some(p) => Ok(found_at(file, p, before)),
    }
}

// Of the day of a number from 0 its channel, where its NMI and suffix stand, its unit, its interval length and its block. The file's own refusal comes first,
// then 14 if there is no such day.
pub fn find_day(file: &[u8], day: usize) -> Result<DayFound, Refusal>
    ensures { day_found_as result ≡ find_of file.now day }
{
    let t = check_and_note(file, day, 0);
    t.answer?;
    found_noted(file, day, t.day, t.before)
}
