// Tests on numbers: what may come, an open cover, a 400's intervals, a read time's day, two marks.
#![tactic(auto)]

ghost use Rattle.std.specs.Prelude.{◌≡◌, not, ◌&&◌, ◌≤◌, ◌+◌, length, eqb, leb};
ghost use Rattle.format.specs.Quality.{same_mark};
ghost use Rattle.format.specs.Order.{may_come};
ghost use Rattle.format.specs.Faults.{on_day};
ghost use Rattle.follows.specs.Tests.{mark_of, expected_as, between, goes_on};

use date_rules::calendar::day_after;
use format::Tag;
use leaf::bytes::same_bytes;

fn between(a: u64, b: u64, x: u64) -> bool
    ensures { result ≡ between a b x }
{
    (a..=b).contains(&x)
}

// Under a day, which may end here.
pub fn in_day(x: u64) -> bool
    ensures { result ≡ between 3 5 x }
{
    between(3, 5, x)
}

// A record of the kind may come where the state's number is x.
pub fn may_come(x: u64, kind: u64) -> bool
    ensures { result ≡ may_come (expected_as x) kind }
{
    match kind {
        100 => x == 0,
        200 => x == 1 || in_day(x),
        300 => between(2, 5, x),
        400 => x == 4,
        500 => in_day(x),
        250 => between(6, 8, x),
        550 => x == 7,
        900 => in_day(x) || between(7, 8, x),
        _ => false,
    }
}

// A V day's cover is not complete, and the record is no 400.
pub fn is_open(expect: u64, next: usize, n: usize, kind: u64) -> bool
    ensures { result ≡ eqb expect 4 && (leb next n && not (eqb kind 400)) }
{
    expect == 4 && next <= n && kind != 400
}

// Intervals a to b go on with the cover, in a day of n.
#[tactic(auto, unfolding(crate::specs::Tests::goes_on))]
pub fn goes_on(next: usize, n: usize, a: usize, b: usize) -> bool
    ensures { result ≡ goes_on next n a b }
{
    a == next && a <= b && b <= n
}

// A read time, if given, has the date and is not its midnight, or is the midnight that ends it.
pub fn on_day(date: u64, time: u64) -> bool
    ensures { result ≡ on_day date time }
{
    let day = time / 1_000_000;
    if time == 0 {
        true
    } else if time % 1_000_000 != 0 {
        day == date
    } else {
        // The day after is later. And a date that is earlier than a time's is small enough for it to be asked.
        date < day && day_after(date) == day
    }
}

// Two marks of the file are the same: flag, method, reason and the description's bytes.
#[tactic(auto, using(crate::proofs::Cases::marks), unfolding(format::specs::Quality::same_mark))]
pub fn same_mark(file: &[u8], s: Tag, t: Tag) -> bool
    requires { (s.start + s.length ≤ length file.now) × (t.start + t.length ≤ length file.now) }
    ensures { result ≡ same_mark (mark_of file.now s) (mark_of file.now t) }
{
    let a = &file[s.start..s.start + s.length];
    let b = &file[t.start..t.start + t.length];
    s.flag == t.flag && s.method == t.method && s.reason == t.reason && same_bytes(a, b)
}
