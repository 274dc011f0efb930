// The walk to a day.
ghost use Rattle.std.specs.Prelude.{◌≡◌, ◌≤◌, length, drop};
ghost use Rattle.ground.specs.Lists.{part};
ghost use Rattle.format.specs.Cut.{fields};
ghost use Rattle.format.specs.Records.{intervals_in, unit_in};
ghost use Rattle.format.specs.Day.{days_of};
ghost use Rattle.day.specs.Places.{DayAhead, located, inside, Behind};

use super::fields::skip;
use super::{DayStart, Place, Under};
use lines::scan;
use says::{intervals_at, kind_at, unit_at};

// How many intervals the days of a 200 have.
pub fn intervals_of(file: &[u8], a: usize, e: usize) -> usize
    requires { (a ≤ e) × (e ≤ length file.now) }
    ensures { result ≡ intervals_in (fields (part file.now a e)) }
{
    let x = skip(file, a, e, 8);
    intervals_at(file, x, e)
}

// The number of the unit that they are in.
pub fn unit_of(file: &[u8], a: usize, e: usize) -> u8
    requires { (a ≤ e) × (e ≤ length file.now) }
    ensures { result ≡ unit_in (fields (part file.now a e)) }
{
    let x = skip(file, a, e, 7);
    unit_at(file, x, e)
}

// The day of a number from 0, with the last 200 before it. A walk that came by has noted from where it is found.
pub fn find_day(file: &[u8], day: usize, from: DayStart) -> Option<Place>
    requires { DayAhead file.now day from }
    ensures is { located file.now result ≡ drop day (days_of file.now) }
    ensures inside { inside file.now result }
{
    let mut at = from.at;
    let mut left = from.left;
    let mut under = from.under;
    loop {
        let s = scan(file, at);
        let e = s.end;
        if e == file.len() {
            return None;
        }
        let a = at;
        at = e + 2;
        let k = kind_at(file, a, e);
        if k == 300 {
            if left == 0 {
                return Some(Place {
                    at: a,
                    end: e,
                    under,
                });
            }
            left -= 1;
        } else if k == 200 {
            under = Under { at: a, end: e };
        }
    }
}

// From where the day behind one is found: behind its 300, or at the end of the file where there was none.
pub fn behind(file: &[u8], p: Option<Place>) -> DayStart
    requires { inside file.now p }
    ensures { Behind file.now p result }
{
    match p {
        Some(found) => DayStart {
            at: found.end + 2,
            left: 0,
            under: found.under,
        },
        None => DayStart {
            at: file.len(),
            left: 0,
            under: Under { at: 0, end: 0 },
        },
    }
}
