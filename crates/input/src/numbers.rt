// Numbers on standard input: decimal, without sign.
ghost use Rattle.std.specs.Prelude.{◌≡◌};
ghost use Rattle.input.specs.Taking.{grown_of, end_after};

use super::bytes::{Cursor, next};
use super::{byte, text};
use machine::Machine;

// The number that v writes with one more digit.
#[tactic(auto, unfolding(crate::specs::Taking::grown_of, ground::specs::Digits::is_digit))]
fn with_digit(v: u64, digit: u8) -> Option<u64>
    ensures { result ≡ grown_of v digit }
{
    if !digit.is_ascii_digit() {
        return None;
    }
    v.checked_mul(10)?.checked_add(u64::from(digit - b'0'))
}

// The rest of a number whose first digits write v, up to the byte that ends it. Nothing says that a number ends, so the loop over its digits has a count.
fn number_from(
    rt: &impl Machine,
    buf: &mut [u8],
    c: Cursor,
    v: u64,
    end: u8,
) -> Option<(u64, Cursor)> {
    let mut now = c;
    let mut sum = v;
    for _ in 0..u64::MAX {
        let (b, after) = next(rt, buf, now)?;
        if b == end {
            return Some((sum, after));
        }
        sum = with_digit(sum, b)?;
        now = after;
    }
    None
}

// A number of a digit or more, and the byte that ends it.
fn number(rt: &impl Machine, buf: &mut [u8], c: Cursor, end: u8) -> Option<(u64, Cursor)> {
    let (b, after) = next(rt, buf, c)?;
    let v = with_digit(0, b)?;
    number_from(rt, buf, after, v, end)
}

// The byte behind number i of n.
#[tactic(auto, unfolding(crate::specs::Taking::end_after))]
fn end_at(i: usize, n: usize, last: u8) -> u8
    ensures { result ≡ end_after i n last }
{
    if i < n.saturating_sub(1) { b' ' } else { last }
}

// As many numbers as the list has places: a space behind each, and another byte behind the last.
fn row(rt: &impl Machine, buf: &mut [u8], c: Cursor, list: &mut [u64], last: u8) -> Option<Cursor> {
    let n = list.len();
    let mut now = c;
    for (i, place) in list.iter_mut().enumerate() {
        let (v, after) = number(rt, buf, now, end_at(i, n, last))?;
        *place = v;
        now = after;
    }
    Some(now)
}

// The first line of a case: the rest of its word, then numbers.
pub fn head(
    rt: &impl Machine,
    buf: &mut [u8],
    c: Cursor,
    word: &[u8],
    list: &mut [u64],
) -> Option<Cursor> {
    let after = text(rt, buf, c, word)?;
    row(rt, buf, after, list, b'\n')
}

// The first line of a case without bytes, and the case's own line's end.
pub fn head_alone(
    rt: &impl Machine,
    buf: &mut [u8],
    c: Cursor,
    word: &[u8],
    list: &mut [u64],
) -> Option<Cursor> {
    let after = head(rt, buf, c, word, list)?;
    byte(rt, buf, after, b'\n')
}

// A line of numbers, a space behind each.
pub fn line(rt: &impl Machine, buf: &mut [u8], c: Cursor, list: &mut [u64]) -> Option<Cursor> {
    let after = row(rt, buf, c, list, b' ')?;
    byte(rt, buf, after, b'\n')
}
