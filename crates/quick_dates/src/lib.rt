// Whether a field is a date or a time. Most have a year from 2000 to 2099 and a day up to 28: such bytes are seen to be a date by the range of each, and
// no number is made. All others go by the simple rule.
#![tactic(auto)]

ghost use Rattle.std.specs.Prelude.{◌≡◌, ◌≤◌, length};
ghost use Rattle.format.specs.Numbers.{is_number};
ghost use Rattle.format.specs.Dates.{date_of, time_of};
ghost use Rattle.quick_dates.specs.Shapes.{is_month, is_early_day, is_hour, is_sixtieth, starts_date, ends_time, is_common_date, is_common_time};

use classes::is_digit;
use date_rules::{date, time};

// 01 to 12.
fn is_month(a: u8, b: u8) -> bool
    ensures { result ≡ is_month a b }
{
    matches!((a, b), (b'0', b'1'..=b'9') | (b'1', b'0'..=b'2'))
}

// 01 to 28: with a day that every month has, the month and the year need not be asked.
fn is_early_day(a: u8, b: u8) -> bool
    ensures { result ≡ is_early_day a b }
{
    matches!(
        (a, b),
        (b'0', b'1'..=b'9') | (b'1', b'0'..=b'9') | (b'2', b'0'..=b'8')
    )
}

// 00 to 23.
fn is_hour(a: u8, b: u8) -> bool
    ensures { result ≡ is_hour a b }
{
    matches!((a, b), (b'0' | b'1', b'0'..=b'9') | (b'2', b'0'..=b'3'))
}

// 00 to 59.
fn is_sixtieth(a: u8, b: u8) -> bool
    ensures { result ≡ is_sixtieth a b }
{
    matches!((a, b), (b'0'..=b'5', b'0'..=b'9'))
}

// The first eight bytes.
fn starts_date(f: &[u8]) -> bool
    requires { 8 ≤ length f.now }
    ensures { result ≡ starts_date f.now }
{
    f[0] == b'2'
        && f[1] == b'0'
        && is_digit(f[2])
        && is_digit(f[3])
        && is_month(f[4], f[5])
        && is_early_day(f[6], f[7])
}

// The six bytes behind them: hour, minute and second.
fn ends_time(f: &[u8]) -> bool
    requires { 14 ≤ length f.now }
    ensures { result ≡ ends_time f.now }
{
    is_hour(f[8], f[9]) && is_sixtieth(f[10], f[11]) && is_sixtieth(f[12], f[13])
}

fn common_date(f: &[u8]) -> bool
    ensures { result ≡ is_common_date f.now }
{
    f.len() == 8 && starts_date(f)
}

fn common_time(f: &[u8]) -> bool
    ensures { result ≡ is_common_time f.now }
{
    f.len() == 14 && starts_date(f) && ends_time(f)
}

// A date of eight digits.
pub fn is_date(f: &[u8]) -> bool
    ensures { result ≡ is_number (date_of f.now) }
{
    if common_date(f) {
        return true;
    }
    date(f).is_some()
}

// A time of fourteen digits.
pub fn is_time(f: &[u8]) -> bool
    ensures { result ≡ is_number (time_of f.now) }
{
    if common_time(f) {
        return true;
    }
    time(f).is_some()
}
