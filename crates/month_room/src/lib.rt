// Whether the days of a call are there and the lists have places for them, known before anything is written: a walk over the days that looks at how many intervals
// each has. It takes the lists' lengths and not the lists.
#![tactic(auto)]

ghost use Rattle.std.specs.Prelude.{◌≡◌, ◌&&◌, ℕ, ◌+◌, ◌-◌, ◌≤◌, drop, leb};
ghost use Rattle.format.specs.Day.{days_of, enough_for};
ghost use Rattle.day.specs.Places.{DayAhead};
ghost use Rattle.month_room.specs.Room.{fault_of};

use day::DayStart;
use day::walk::{behind, find_day, intervals_of};

fn shorter(a: usize, b: usize) -> usize
    ensures { (n : ℕ) → leb n result ≡ (leb n a && leb n b) }
{
    if a < b { a } else { b }
}

// The shortest of six lists of these lengths.
pub fn shortest(v: usize, f: usize, m: usize, r: usize, s: usize, l: usize) -> usize
    ensures { (n : ℕ) → enough_for n v f m r s l ≡ leb n result }
{
    let a = shorter(v, f);
    let b = shorter(a, m);
    let c = shorter(b, r);
    let d = shorter(c, s);
    shorter(d, l)
}

// What the first of the days is refused with that is refused, 0 where none is: 14 or 15. The long lists have that room, those of one place a day so many places.
pub fn fault(
    file: &[u8],
    first: usize,
    last: usize,
    from: DayStart,
    room: usize,
    places: usize,
) -> u64
    requires { (first ≤ last) × DayAhead file.now first from }
    ensures { result ≡ fault_of (last + 1 - first) (drop first (days_of file.now)) room places }
{
    let mut at = from;
    let mut long = room;
    let mut i: usize = 0;
    loop {
        let day = first + i;
        let place = find_day(file, day, at);
        let next = behind(file, place);
        let Some(found) = place else {
            return 14;
        };
        let n = intervals_of(file, found.under.at, found.under.end);
        if long < n {
            return 15;
        }
        if places <= i {
            return 15;
        }
        if day == last {
            return 0;
        }
        at = next;
        long -= n;
        i += 1;
    }
}
