// The rules of dates and times, one function a rule: each answers the decimal number that their digits write; 0 where one may be empty and is.
#![tactic(auto)]

pub mod calendar;

ghost use Rattle.std.specs.Prelude.{◌≡◌, ◌<◌, ◌^◌};
ghost use Rattle.format.specs.Dates.{is_minute, date_of, time_of, created_of, next_read_of, load_of, taken_of, read_time_of};

use calendar::{is_date, is_read_time, is_time};
use leaf::digits::digits;

// yyyymmddhhmm.
fn is_minute(t: u64) -> bool
    requires { t < 10 ^ 12 }
    ensures { result ≡ is_minute t }
{
    is_time(t * 100)
}

pub fn date(f: &[u8]) -> Option<u64>
    ensures { result ≡ date_of f.now }
{
    let t = digits(f, 8, 8)?;
    is_date(t).then_some(t)
}

// DateTime(14).
pub fn time(f: &[u8]) -> Option<u64>
    ensures { result ≡ time_of f.now }
{
    let t = digits(f, 14, 14)?;
    is_time(t).then_some(t)
}

// DateTime(12), the 100's.
pub fn created(f: &[u8]) -> Option<u64>
    ensures { result ≡ created_of f.now }
{
    let t = digits(f, 12, 12)?;
    is_minute(t).then_some(t)
}

pub fn next_read_date(f: &[u8]) -> Option<u64>
    ensures { result ≡ next_read_of f.now }
{
    let n = f.len();
    if n == 0 {
        return Some(0);
    }
    date(f)
}

pub fn load_time(f: &[u8]) -> Option<u64>
    ensures { result ≡ load_of f.now }
{
    let size = f.len();
    if size == 0 {
        return Some(0);
    }
    time(f)
}

// A 500's read time that is given.
fn taken(f: &[u8]) -> Option<u64>
    ensures { result ≡ taken_of f.now }
{
    let t = digits(f, 14, 14)?;
    is_read_time(t).then_some(t)
}

// One that may be empty.
pub fn read_time(f: &[u8]) -> Option<u64>
    ensures { result ≡ read_time_of f.now }
{
    if f.len() == 0 {
        return Some(0);
    }
    taken(f)
}
