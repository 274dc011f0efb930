// Numbers that are dates and times.
ghost use Rattle.std.specs.Prelude.{◌≡◌, ◌<◌, ◌^◌};
ghost use Rattle.format.specs.Dates.{is_leap, days_in_month, is_date, day_after, is_time, is_read_time};

fn is_leap(y: u64) -> bool
    ensures { result ≡ is_leap y }
{
    (y % 4 == 0 && y % 100 != 0) || y % 400 == 0
}

fn days_in(y: u64, m: u64) -> u64
    ensures { result ≡ days_in_month y m }
{
    match m {
        2 if is_leap(y) => 29,
        2 => 28,
        4 | 6 | 9 | 11 => 30,
        _ => 31,
    }
}

// A number that is a date, yyyymmdd.
pub fn is_date(t: u64) -> bool
    ensures { result ≡ is_date t }
{
    let y = t / 10000;
    let m = t / 100 % 100;
    let d = t % 100;
    1900 <= y && y <= 2199 && 1 <= m && m <= 12 && 1 <= d && d <= days_in(y, m)
}

// The next date, as a number too: for 21991231 it is 22000101.
pub fn day_after(t: u64) -> u64
    requires { t < 10 ^ 14 }
    ensures { result ≡ day_after t }
{
    let y = t / 10000;
    let m = t / 100 % 100;
    if t % 100 < days_in(y, m) {
        t + 1
    } else if m < 12 {
        (t / 100 + 1) * 100 + 1
    } else {
        (y + 1) * 10000 + 101
    }
}

// A number that is a date and a time of day, yyyymmddhhmmss.
pub fn is_time(t: u64) -> bool
    ensures { result ≡ is_time t }
{
    t / 10000 % 100 < 24 && t / 100 % 100 < 60 && t % 100 < 60 && is_date(t / 1000000)
}

// A number that is such a time, or the end of the last date.
pub fn is_read_time(t: u64) -> bool
    ensures { result ≡ is_read_time t }
{
    is_time(t) || t == 22000101000000
}
