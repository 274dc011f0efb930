// Whether a field is a value or a register read, which is asked most often: each has the contract of the simple rule, and no number is made.
#![tactic(auto)]

ghost use Rattle.std.specs.Prelude.{◌≡◌, ◌≤◌, length};
ghost use Rattle.ground.specs.Lists.{span_of};
ghost use Rattle.ground.specs.Digits.{is_digit};
ghost use Rattle.format.specs.Numbers.{is_number, value_of, is_read};
ghost use Rattle.quick_values.specs.Shapes.{is_thousandths};

use classes::{Class, are_all, is_digit};

// How many of the first bytes are digits.
fn digit_span(f: &[u8]) -> usize
    ensures is { result ≡ span_of is_digit f.now }
    ensures within { result ≤ length f.now }
{
    for (i, b) in f.iter().enumerate() {
        if !is_digit(*b) {
            return i;
        }
    }
    f.len()
}

// A value of at most d decimals: its digits up to the point, the point, the digits behind it, each looked at once. No unit has more than six decimals, so that
// one comparison is enough for them.
pub fn is_value(f: &[u8], d: usize) -> bool
    requires { d ≤ 6 }
    ensures { result ≡ is_number (value_of d f.now) }
{
    let w = digit_span(f);
    if w < 1 {
        return false;
    }
    if 7 < w {
        return false;
    }
    if w == f.len() {
        return true;
    }
    f[w] == b'.' && are_all(&f[w + 1..], Class::Digit, 1, d)
}

// A register read: it goes like a value, but only all of its bytes are counted.
pub fn is_read(f: &[u8]) -> bool
    ensures { result ≡ is_read f.now }
{
    if 15 < f.len() {
        return false;
    }
    let w = digit_span(f);
    if w < 1 {
        return false;
    }
    if w == f.len() {
        return true;
    }
    f[w] == b'.' && are_all(&f[w + 1..], Class::Digit, 1, 15)
}

// A digit, a point and three digits: a value, where three decimals are allowed, whose end need not be looked for, since none of them is a comma.
pub fn thousandths(f: &[u8]) -> bool
    ensures { result ≡ is_thousandths f.now }
{
    f.len() == 5
        && f[1] == b'.'
        && is_digit(f[0])
        && is_digit(f[2])
        && is_digit(f[3])
        && is_digit(f[4])
}
