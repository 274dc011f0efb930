// One method a record kind: it takes the state, asks the refusals that stand behind 6, and hands the state back. The record goes from at to e, and
// every field of it meets its rule.
ghost use Rattle.std.specs.Prelude.{◌≡◌, cond, ◌&&◌, ◌+◌, ◌≤◌, length, eqb};
ghost use Rattle.format.specs.Order.{on100, on200};
ghost use Rattle.runs.specs.Ran.{Ran};
ghost use Rattle.follows.specs.Tests.{mark_of};
ghost use Rattle.order.specs.State.{seen, no_tag, closed, Kept, cells, Here, After, last_of, step_as, Holds, alike_to};

use super::{State, Stop};
use follows::{goes_on, on_day, same_mark};
use format::Tag;
use quality_rules::across;
use says::{date_at, decimals_at, intervals_at, read_time_at, tag_at, version_at};

fn no_tag() -> Tag
    ensures { result ≡ no_tag }
{
    Tag {
        flag: 0,
        method: 255,
        reason: 65535,
        start: 0,
        length: 0,
    }
}

// Under a day of quality V, or of another.
fn under(flag: u8) -> u64
    ensures { result ≡ cond (eqb flag 86) 4 3 }
{
    if flag == 86 {
        return 4;
    }
    3
}

// A 400 that ends at the day's last interval leaves the whole day alike.
fn whole(to: usize, n: usize, alike: bool) -> bool
    ensures { result ≡ eqb to n && alike }
{
    if to != n {
        return false;
    }
    alike
}

impl State {
    // Where no V day is open.
    pub fn closed(
        expect: u64,
        version: u64,
        n: usize,
        decimals: usize,
        date: u64,
        channels: usize,
        days: usize,
    ) -> State
        ensures { result ≡ closed expect version n decimals date channels days }
    {
        State {
            expect,
            version,
            n,
            decimals,
            date,
            next: 0,
            mark: no_tag(),
            alike: false,
            channels,
            days,
        }
    }

    // With this mark, all of the day's 400s have one: asked only while they are alike.
    fn alike_with(self, file: &[u8], t: Tag) -> bool
        requires { (1 ≤ self.next) × (self.mark.start + self.mark.length ≤ length file.now) × (t.start + t.length ≤ length file.now) }
        ensures { result ≡ alike_to (seen file.now self) (mark_of file.now t) }
    {
        if self.next == 1 {
            return true;
        }
        if !self.alike {
            return false;
        }
        same_mark(file, self.mark, t)
    }

    // The mark of the day's first 400.
    fn first_mark(self, t: Tag) -> Tag
        ensures { result ≡ cond (eqb self.next 1) t self.mark }
    {
        if self.next == 1 {
            return t;
        }
        self.mark
    }

    pub fn on_100(self, file: &[u8], at: usize, e: usize) -> State
        requires { Here file.now at e 1 (at + 4) }
        ensures { After file.now e (on100 (seen file.now self) (cells file.now at e)) result }
    {
        let v = version_at(file, at + 4, e);
        if v == 12 {
            return State::closed(1, v, 0, 0, 0, 0, 0);
        }
        State::closed(6, v, 0, 0, 0, 0, 0)
    }

    // p is where the interval length starts, and q the unit.
    pub fn on_200(self, file: &[u8], at: usize, e: usize, p: usize, q: usize) -> State
        requires { Kept file.now at self × Here file.now at e 8 p × Here file.now at e 7 q }
        ensures { After file.now e (on200 (seen file.now self) (cells file.now at e)) result }
    {
        let n = intervals_at(file, p, e);
        let d = decimals_at(file, q, e);
        State::closed(2, self.version, n, d, 0, self.channels + 1, self.days)
    }

    // p is where the quality starts.
    pub fn on_300(self, file: &[u8], at: usize, e: usize, p: usize) -> Result<State, Stop>
        requires { Kept file.now at self × Here file.now at e 1 (at + 4) × Here file.now at e (self.n + 2) p }
        ensures { (step_as file.now result ≡ last_of (seen file.now self) 300 (cells file.now at e)) × Holds file.now at e result }
    {
        let t = tag_at(file, p, e, 300);
        if !across(t.flag, t.reason, t.length) {
            return Err(Stop {
                number: 7,
                place: p - at,
                field: self.n + 3,
            });
        }
        let d = date_at(file, at + 4, e);
        if d <= self.date {
            return Err(Stop {
                number: 8,
                place: 4,
                field: 2,
            });
        }
        Ok(State {
            expect: under(t.flag),
            version: self.version,
            n: self.n,
            decimals: self.decimals,
            date: d,
            next: 1,
            mark: no_tag(),
            alike: false,
            channels: self.channels,
            days: self.days + 1,
        })
    }

    // Intervals from and to with the mark t, whose quality starts at q.
    pub fn on_400(
        self,
        file: &[u8],
        at: usize,
        e: usize,
        from: usize,
        to: usize,
        q: usize,
        t: Tag,
    ) -> Result<State, Stop>
        requires { Kept file.now at self × Here file.now at e 1 (at + 4) × Ran file.now at e from to q t × (1 ≤ self.next) }
        ensures { (step_as file.now result ≡ last_of (seen file.now self) 400 (cells file.now at e)) × Holds file.now at e result }
    {
        if !across(t.flag, t.reason, t.length) {
            return Err(Stop {
                number: 7,
                place: q - at,
                field: 4,
            });
        }
        if !goes_on(self.next, self.n, from, to) {
            return Err(Stop {
                number: 9,
                place: 4,
                field: 2,
            });
        }
        let alike = self.alike_with(file, t);
        if whole(to, self.n, alike) {
            return Err(Stop {
                number: 11,
                place: 0,
                field: 0,
            });
        }
        Ok(State {
            expect: 4,
            version: self.version,
            n: self.n,
            decimals: self.decimals,
            date: self.date,
            next: to + 1,
            mark: self.first_mark(t),
            alike,
            channels: self.channels,
            days: self.days,
        })
    }

    // p is where the read time starts.
    pub fn on_500(self, file: &[u8], at: usize, e: usize, p: usize) -> Result<State, Stop>
        requires { Kept file.now at self × Here file.now at e 3 p }
        ensures { (step_as file.now result ≡ last_of (seen file.now self) 500 (cells file.now at e)) × Holds file.now at e result }
    {
        let t = read_time_at(file, p, e);
        if !on_day(self.date, t) {
            return Err(Stop {
                number: 12,
                place: p - at,
                field: 4,
            });
        }
        Ok(State::closed(
            5,
            self.version,
            self.n,
            self.decimals,
            self.date,
            self.channels,
            self.days,
        ))
    }

    // p and q are where the qualities of previous and current start.
    pub fn on_250(self, file: &[u8], at: usize, e: usize, p: usize, q: usize) -> Result<State, Stop>
        requires { Kept file.now at self × Here file.now at e 10 p × Here file.now at e 15 q }
        ensures { (step_as file.now result ≡ last_of (seen file.now self) 250 (cells file.now at e)) × Holds file.now at e result }
    {
        let previous = p - at;
        let current = q - at;
        let s = tag_at(file, p, e, 250);
        if !across(s.flag, s.reason, s.length) {
            return Err(Stop {
                number: 7,
                place: previous,
                field: 11,
            });
        }
        let t = tag_at(file, q, e, 250);
        if !across(t.flag, t.reason, t.length) {
            return Err(Stop {
                number: 7,
                place: current,
                field: 16,
            });
        }
        Ok(State::closed(7, self.version, 0, 0, 0, self.channels + 1, self.days))
    }

    pub fn on_550(self) -> State
        ensures { result ≡ closed 8 self.version 0 0 0 self.channels self.days }
    {
        State::closed(8, self.version, 0, 0, 0, self.channels, self.days)
    }

    pub fn on_900(self) -> State
        ensures { result ≡ closed 9 self.version 0 0 0 self.channels self.days }
    {
        State::closed(9, self.version, 0, 0, 0, self.channels, self.days)
    }
}
