// The case that hands in a room with a file in front, and a block for one of the file's days. The answer is the line and, where the file was edited, all of the
// room, which is too long for the page.
ghost use Rattle.std.specs.Prelude.{◌≤◌, length};

use edit_calls::{Edited, replace};
use input::Going;
use input::bytes::{Cursor, fill, fill_line};
use input::numbers::head;
use machine::Machine;
use output::write;
use page::texts::part;

// All of the room, and behind it a block of n bytes.
fn room_in(
    rt: &impl Machine,
    buf: &mut [u8],
    c: Cursor,
    room: &mut [u8],
    n: usize,
    block: &mut [u8],
) -> Option<Cursor> {
    let after = fill(rt, buf, c, room)?;
    fill_line(rt, buf, after, n, block)
}

// The room behind its line, which is written out first.
fn room_out(rt: &impl Machine, page: &[u8], room: &[u8], x: Edited) -> usize {
    if x.bytes == 0 {
        return x.at;
    }
    write(rt, page, x.at);
    write(rt, room, x.bytes);
    0
}

// Day k of the n bytes in front of the room, replaced by the block, of that many bytes, that stands behind the room on standard input.
fn replace_in(
    rt: &impl Machine,
    buf: &mut [u8],
    c: Cursor,
    k: usize,
    n: usize,
    room: &mut [u8],
    copy: &mut [u8],
    bytes: usize,
    block: &mut [u8],
    page: &mut [u8],
    at: usize,
) -> Option<Going>
    requires { length room.old ≤ length copy.old }
{
    let after = room_in(rt, buf, c, room, bytes, block)?;
    let x = replace(room, copy, n, k, part(block, 0, bytes), page, at);
    Some(Going::On(after, room_out(rt, page, room, x)))
}

// The room and its copy are as long as the longest room that can be handed in.
pub fn replace_case(
    rt: &impl Machine,
    buf: &mut [u8],
    c: Cursor,
    room: &mut [u8],
    copy: &mut [u8],
    block: &mut [u8],
    page: &mut [u8],
    at: usize,
) -> Option<Going> {
    let mut numbers = [0u64; 4];
    let after = head(rt, buf, c, b"eplace ", &mut numbers)?;
    let k = numbers[0] as usize;
    let n = numbers[1] as usize;
    let whole = numbers[2] as usize;
    let bytes = numbers[3] as usize;
    if room.len() < whole || copy.len() < whole {
        return None;
    }
    replace_in(
        rt,
        buf,
        after,
        k,
        n,
        &mut room[..whole],
        copy,
        bytes,
        block,
        page,
        at,
    )
}
