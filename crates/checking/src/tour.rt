// The walk over the lent file, record after record, with the state handed in and handed back. On its way it notes from where a day and a channel are
// found, so that nobody has to walk to them again.
ghost use Rattle.std.specs.Prelude.{◌≡◌, cond, ◌-◌, ◌<◌, leb, eqb, Err};
ghost use Rattle.format.specs.Answers.{refused as Answers·refused};
ghost use Rattle.format.specs.Answers.{refused_as, checked_as};
ghost use Rattle.format.specs.File.{check_of};
ghost use Rattle.day.specs.Places.{DayAhead};
ghost use Rattle.channel.specs.Places.{ChannelAhead};
ghost use Rattle.checking.specs.Tour.{no_under, first_day, first_channel, first_tour, ChannelsBefore, Touring, turned_to};

use channel::ChannelStart;
use day::{DayStart, Under};
use format::{Checked, Refusal};
use order::State;
use walker::record_at;

// The walk before a record, beside its state: where the record starts, how many are behind, the last 200, and from where the day and the channel that were
// asked for are found, with the channels before that day.
#[derive(Clone, Copy)]
pub struct Tour {
    pub at: usize,
    pub records: usize,
    pub under: Under,
    pub day: DayStart,
    pub before: usize,
    pub channel: ChannelStart,
}

// What the check answers, from where the day and the channel that were asked for are found, and how many channels stand before the day.
#[derive(Clone, Copy)]
pub struct Noted {
    pub answer: Result<Checked, Refusal>,
    pub day: DayStart,
    pub before: usize,
    pub channel: ChannelStart,
}

fn no_channel() -> Under
    ensures { result ≡ no_under }
{
    Under { at: 0, end: 0 }
}

fn first_day(day: usize) -> DayStart
    ensures { result ≡ first_day day }
{
    DayStart {
        at: 0,
        left: day,
        under: no_channel(),
    }
}

fn first_channel(channel: usize) -> ChannelStart
    ensures { result ≡ first_channel channel }
{
    ChannelStart {
        at: 0,
        left: channel,
    }
}

// At a record with so many days before it, as long as the day is not among them.
fn day_from(before: DayStart, day: usize, days: usize, at: usize, under: Under) -> DayStart
    ensures { result ≡ cond (leb days day) (record { at = at; left = day - days; under = under }) before }
{
    if days <= day {
        return DayStart {
            at,
            left: day - days,
            under,
        };
    }
    before
}

// The channels that stand before it.
fn before_from(before: usize, day: usize, days: usize, channels: usize) -> usize
    ensures { result ≡ cond (leb days day) channels before }
{
    if days <= day {
        return channels;
    }
    before
}

fn channel_from(before: ChannelStart, channel: usize, channels: usize, at: usize) -> ChannelStart
    ensures { result ≡ cond (leb channels channel) (record { at = at; left = channel - channels }) before }
{
    if channels <= channel {
        return ChannelStart {
            at,
            left: channel - channels,
        };
    }
    before
}

// The last 200 behind a record from at to e: where a 300 is expected at once, the record was a 200.
fn under_from(before: Under, at: usize, e: usize, expect: u64) -> Under
    ensures { result ≡ cond (eqb expect 2) (record { at = at; end = e }) before }
{
    if expect == 2 {
        return Under { at, end: e };
    }
    before
}

impl Tour {
    // Before the first record.
    fn new(day: usize, channel: usize) -> Tour
        ensures { result ≡ first_tour day channel }
    {
        Tour {
            at: 0,
            records: 0,
            under: no_channel(),
            day: first_day(day),
            before: 0,
            channel: first_channel(channel),
        }
    }

    // Behind the record that went from the walk's place to e and left the state s.
    fn turn(self, e: usize, behind: usize, s: State, day: usize, channel: usize) -> Tour
        requires { self.records < behind }
        ensures { result ≡ turned_to self e behind s day channel }
    {
        let under = under_from(self.under, self.at, e, s.expect);
        Tour {
            at: behind,
            records: self.records + 1,
            under,
            day: day_from(self.day, day, s.days, behind, under),
            before: before_from(self.before, day, s.days, s.channels),
            channel: channel_from(self.channel, channel, s.channels, behind),
        }
    }

    // The end of the file has to stand behind the 900.
    fn end(self, file: &[u8], st: State, day: usize, channel: usize) -> Result<Checked, Refusal>
        requires { Touring file.now day channel st self × (st.expect ≡ 9) }
        ensures { checked_as result ≡ check_of file.now }
    {
        if self.at == file.len() {
            return Ok(Checked {
                version: st.version,
                channels: st.channels,
                days: st.days,
            });
        }
        Err(Refusal {
            number: 13,
            place: self.at,
            record: self.records,
            field: 0,
        })
    }
}

fn place_of(number: u64, place: usize, record: usize, field: usize) -> Refusal
    ensures { refused_as result ≡ Answers·refused number place «record» field }
{
    Refusal {
        number,
        place,
        record,
        field,
    }
}

// A refusal, with the day and the channel to be looked for from the start.
fn refused(x: Refusal, day: usize, channel: usize) -> Noted
    ensures { result ≡ (record { answer = Err x; day = first_day day; before = 0; channel = first_channel channel }) }
{
    Noted {
        answer: Err(x),
        day: first_day(day),
        before: 0,
        channel: first_channel(channel),
    }
}

// The whole file, up to its first refusal; the day and the channel have numbers from 0.
pub fn check_and_note(file: &[u8], day: usize, channel: usize) -> Noted
    ensures is { checked_as result.answer ≡ check_of file.now }
    ensures day { DayAhead file.now day result.day }
    ensures before { ChannelsBefore file.now day result.before }
    ensures channel { ChannelAhead file.now channel result.channel }
{
    if 1048576 < file.len() {
        return refused(Refusal::bare(1), day, channel);
    }
    let mut st = State::new();
    let mut t = Tour::new(day, channel);
    while st.expect != 9 {
        let at = t.at;
        let handed = record_at(file, at);
        let Some((_, found)) = handed else {
            return refused(place_of(2, at, t.records, 0), day, channel);
        };
        let e = found.end;
        let step = st.step(file, at, found);
        match step {
            Err(x) => {
                return refused(
                    place_of(x.number, at + x.place, t.records, x.field),
                    day,
                    channel,
                );
            }
            Ok(s) => {
                t = t.turn(e, e + 2, s, day, channel);
                st = s;
            }
        }
    }
    let to_day = t.day;
    let before = t.before;
    let to_channel = t.channel;
    Noted {
        answer: t.end(file, st, day, channel),
        day: to_day,
        before,
        channel: to_channel,
    }
}
