// Answers the cases on standard input, one after the other, so that each public entry can be driven with any bytes.
#![tactic(auto)]

use cases::rooms::replace_case;
use cases::stores::{bytes_case, delete_case, get_case, make_case, memory_case, slot_case};
use cases::{block_case, check_case, day_case, find_case, total_case};
use input::bytes::{Cursor, next};
use input::{Going, text};
use machine::{Machine, PAGE};
use map_cases::{add_case, back_case, make_map_case, on_case};
use month_cases::month_case;
use output::{make_room, write};
use page::texts::put;
use sheet::puts::put_case;
use sheet::write_case;
use split_cases::{split_case, split_day_case, split_stored_case};
use std::alloc::AllocError;

// The longest file, room and block that can be handed in.
const LONGEST: usize = 1100000;

// The longest memory that can be lent, of which there is a copy before a call.
const MEMORY: usize = 1200000;

// The cases whose second byte tells them apart.
fn b_case(
    rt: &impl Machine,
    buf: &mut [u8],
    c: Cursor,
    file: &mut [u8],
    memory: &mut [u8],
    size: usize,
    copy: &mut [u8],
    page: &mut [u8],
    at: usize,
) -> Option<Going> {
    let (b, after) = next(rt, buf, c)?;
    match b {
        b'a' => back_case(rt, buf, after, memory, size, copy, page, at),
        b'l' => block_case(rt, buf, after, file, page, at),
        b'y' => bytes_case(rt, buf, after, memory, size, page, at),
        _ => None,
    }
}

fn d_case(
    rt: &impl Machine,
    buf: &mut [u8],
    c: Cursor,
    file: &mut [u8],
    memory: &mut [u8],
    size: usize,
    copy: &mut [u8],
    page: &mut [u8],
    at: usize,
) -> Option<Going> {
    let (b, after) = next(rt, buf, c)?;
    match b {
        b'a' => day_case(rt, buf, after, file, page, at),
        b'e' => delete_case(rt, buf, after, memory, size, copy, page, at),
        _ => None,
    }
}

// A store or a map: their words part behind the letters that they share.
fn making_case(
    rt: &impl Machine,
    buf: &mut [u8],
    c: Cursor,
    memory: &mut [u8],
    size: usize,
    copy: &mut [u8],
    page: &mut [u8],
    at: usize,
) -> Option<Going> {
    let shared = text(rt, buf, c, b"ke")?;
    let (b, after) = next(rt, buf, shared)?;
    match b {
        b' ' => make_case(rt, buf, after, memory, size, copy, page, at),
        b'm' => make_map_case(rt, buf, after, memory, size, copy, page, at),
        _ => None,
    }
}

fn m_case(
    rt: &impl Machine,
    buf: &mut [u8],
    c: Cursor,
    file: &mut [u8],
    memory: &mut [u8],
    size: usize,
    copy: &mut [u8],
    page: &mut [u8],
    at: usize,
) -> Option<Going> {
    let (b, after) = next(rt, buf, c)?;
    match b {
        b'a' => making_case(rt, buf, after, memory, size, copy, page, at),
        b'e' => memory_case(rt, buf, after, memory, page, at),
        b'o' => month_case(rt, buf, after, file, page, at),
        _ => None,
    }
}

// A total, a day of a file or one of a store: their words part behind the letters that they share. What a splitting of the last kind is handed is read into the
// room for a file.
fn splitting_case(
    rt: &impl Machine,
    buf: &mut [u8],
    c: Cursor,
    file: &mut [u8],
    memory: &[u8],
    size: usize,
    page: &mut [u8],
    at: usize,
) -> Option<Going> {
    let shared = text(rt, buf, c, b"lit")?;
    let (b, after) = next(rt, buf, shared)?;
    match b {
        b' ' => split_case(rt, buf, after, page, at),
        b'd' => split_day_case(rt, buf, after, file, memory, size, page, at),
        b's' => split_stored_case(rt, buf, after, file, memory, size, page, at),
        _ => None,
    }
}

fn s_case(
    rt: &impl Machine,
    buf: &mut [u8],
    c: Cursor,
    file: &mut [u8],
    memory: &[u8],
    size: usize,
    page: &mut [u8],
    at: usize,
) -> Option<Going> {
    let (b, after) = next(rt, buf, c)?;
    match b {
        b'l' => slot_case(rt, buf, after, memory, size, page, at),
        b'p' => splitting_case(rt, buf, after, file, memory, size, page, at),
        _ => None,
    }
}

// The next case, told by its first byte.
fn case(
    rt: &impl Machine,
    buf: &mut [u8],
    c: Cursor,
    file: &mut [u8],
    copy: &mut [u8],
    block: &mut [u8],
    memory: &mut [u8],
    size: usize,
    page: &mut [u8],
    at: usize,
) -> Option<Going> {
    let Some((b, after)) = next(rt, buf, c) else {
        return Some(Going::Ended);
    };
    match b {
        b'a' => add_case(rt, buf, after, memory, size, copy, page, at),
        b'b' => b_case(rt, buf, after, file, memory, size, copy, page, at),
        b'c' => check_case(rt, buf, after, file, page, at),
        b'd' => d_case(rt, buf, after, file, memory, size, copy, page, at),
        b'f' => find_case(rt, buf, after, file, page, at),
        b'g' => get_case(rt, buf, after, memory, size, page, at),
        b'm' => m_case(rt, buf, after, file, memory, size, copy, page, at),
        b'o' => on_case(rt, buf, after, memory, size, page, at),
        b'p' => put_case(rt, buf, after, memory, size, copy, page, at),
        b'r' => replace_case(rt, buf, after, file, copy, block, page, at),
        b's' => s_case(rt, buf, after, file, memory, size, page, at),
        b't' => total_case(rt, buf, after, file, page, at),
        b'w' => write_case(rt, buf, after, page, at),
        _ => None,
    }
}

fn bad_case(rt: &impl Machine, page: &mut [u8], at: usize) {
    let p = put(page, at, b"bad case\n");
    write(rt, page, p);
}

fn run(
    rt: &impl Machine,
    buf: &mut [u8],
    file: &mut [u8],
    copy: &mut [u8],
    block: &mut [u8],
    memory: &mut [u8],
    page: &mut [u8],
) {
    let mut c = Cursor { at: 0, end: 0 };
    let mut at: usize = 0;
    let mut size: usize = 0;
    // Nothing says that the input ends, so the loop over its cases has a count.
    for _ in 0..u64::MAX {
        match case(rt, buf, c, file, copy, block, memory, size, page, at) {
            Some(Going::On(next, place)) => {
                c = next;
                at = make_room(rt, page, place);
            }
            Some(Going::Lent(next, place, n)) => {
                c = next;
                at = make_room(rt, page, place);
                size = n;
            }
            Some(Going::Ended) => {
                write(rt, page, at);
                return;
            }
            None => {
                bad_case(rt, page, at);
                return;
            }
        }
    }
}

fn main(rt: HostRuntime) -> Result<(), AllocError> {
    let alloc = rt.alloc();
    let mut file = vec![in alloc; 0u8; LONGEST]?;
    let mut copy = vec![in alloc; 0u8; MEMORY]?;
    let mut block = vec![in alloc; 0u8; LONGEST]?;
    let mut memory = vec![in alloc; 0u8; MEMORY]?;
    let mut buf = [0u8; PAGE];
    let mut page = [0u8; PAGE];
    run(
        &rt,
        &mut buf,
        &mut file,
        &mut copy,
        &mut block,
        &mut memory,
        &mut page,
    );
    Ok(())
}
