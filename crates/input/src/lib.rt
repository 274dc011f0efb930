// Standard input, byte by byte, in stretches, and as numbers. How bytes are taken is decided by functions that have contracts. No contract can say what is
// read, so those that read are proved safe, and have none.
#![tactic(auto)]

pub mod bytes;
pub mod numbers;

ghost use Rattle.std.specs.Prelude.{◌≡◌};
ghost use Rattle.input.specs.Taking.{expected_of};

use bytes::{Cursor, next};
use machine::Machine;

// What a case of the probe has come to: answered, with the input behind it and the page's place behind its answer; the same, and so many bytes of memory are lent
// from now on; or there was none. Those that read a case give no such value where it was no case.
#[derive(Clone, Copy)]
pub enum Going {
    On(Cursor, usize),
    Lent(Cursor, usize, usize),
    Ended,
}

// Behind a byte, if it is the one that is expected.
fn expected(t: Option<(u8, Cursor)>, sign: u8) -> Option<Cursor>
    ensures { result ≡ expected_of sign t }
{
    match t {
        Some((b, after)) if b == sign => Some(after),
        _ => None,
    }
}

// The byte, and no other.
pub fn byte(rt: &impl Machine, buf: &mut [u8], c: Cursor, sign: u8) -> Option<Cursor> {
    expected(next(rt, buf, c), sign)
}

// The text, and no other.
pub fn text(rt: &impl Machine, buf: &mut [u8], c: Cursor, signs: &[u8]) -> Option<Cursor> {
    let mut now = c;
    for sign in signs {
        now = byte(rt, buf, now, *sign)?;
    }
    Some(now)
}
