// Bytes of standard input. Bytes at..end of the buffer are read and not yet used. What was taken comes with the cursor behind it; it is `None` where there was none.
ghost use Rattle.std.specs.Prelude.{◌≡◌, ◌≤◌, length};
ghost use Rattle.input.specs.Taking.{held_of, behind_of};

use super::byte;
use machine::Machine;
use page::texts::{part, put};

#[derive(Clone, Copy)]
pub struct Cursor {
    pub at: usize,
    pub end: usize,
}

// The byte at the cursor, where the buffer holds one that is not yet used.
#[tactic(auto, unfolding(crate::specs::Taking::held_of))]
fn held(buf: &[u8], c: Cursor) -> Option<(u8, Cursor)>
    ensures { result ≡ held_of buf.now c }
{
    let Cursor { at, end } = c;
    if at < end && at < buf.len() {
        Some((buf[at], Cursor { at: at + 1, end }))
    } else {
        None
    }
}

// One read: how many bytes stand at the start of the buffer then, none where there are no more or they can't be read.
fn read(rt: &impl Machine, buf: &mut [u8]) -> usize
    ensures { result ≤ length buf.new }
{
    rt.read(buf).unwrap_or(0)
}

// The next byte, with the buffer filled anew where it is used up.
pub fn next(rt: &impl Machine, buf: &mut [u8], c: Cursor) -> Option<(u8, Cursor)> {
    let taken = held(buf, c);
    if taken.is_some() {
        return taken;
    }
    let n = read(rt, buf);
    held(buf, Cursor { at: 0, end: n })
}

// The cursor behind n bytes that the buffer held.
#[tactic(auto, unfolding(crate::specs::Taking::behind_of))]
fn behind(c: Cursor, n: usize) -> Cursor
    ensures { result ≡ behind_of c n }
{
    let Cursor { at, end } = c;
    if at < end && n <= end - at {
        Cursor { at: at + n, end }
    } else {
        Cursor { at: 0, end: 0 }
    }
}

// Fills the list, past the buffer where that is used up.
pub fn fill(rt: &impl Machine, buf: &[u8], c: Cursor, to: &mut [u8]) -> Option<Cursor> {
    let first = put(to, 0, part(buf, c.at, c.end));
    let mut n = first;
    while n < to.len() {
        let more = read(rt, &mut to[n..]);
        if more == 0 {
            return None;
        }
        n += more;
    }
    Some(behind(c, first))
}

// The first n places of the list, and the line's end behind them.
pub fn fill_line(
    rt: &impl Machine,
    buf: &mut [u8],
    c: Cursor,
    n: usize,
    list: &mut [u8],
) -> Option<Cursor> {
    let after = fill(rt, buf, c, list.get_mut(..n)?)?;
    byte(rt, buf, after, b'\n')
}

// The first n places of one list, the first k of another behind them, and the line's end.
pub fn fill_both(
    rt: &impl Machine,
    buf: &mut [u8],
    c: Cursor,
    n: usize,
    one: &mut [u8],
    k: usize,
    other: &mut [u8],
) -> Option<Cursor> {
    let after = fill(rt, buf, c, one.get_mut(..n)?)?;
    fill_line(rt, buf, after, k, other)
}
