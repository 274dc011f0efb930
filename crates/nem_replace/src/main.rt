// nem replace: a file with another block in the place of one day's. The words are its own name, the command's, the file's, which day it is, and the block's.
// Nothing is written unless the edited file is whole. No contract can say what is read or written, so these functions are proved safe, and have none.
#![tactic(auto)]

ghost use Rattle.std.specs.Prelude.{◌≤◌};

use alone::check_block;
use day_rows::refused;
use disk::load_word;
use explain::refused::explained_as;
use format::Refusal;
use machine::{Machine, PAGE};
use outward::{FAILED, REFUSED, complain, finish, warn, write};
use page::texts::{number, part, put};
use phrase::times::date;
use records::record_of;
use replacing::replace_day;
use std::alloc::{AllocError, Global};
use wanted::{last_word, wanted_before_last};
use whose::find_day;

// A place more than the longest file has, so that a longer one is seen to be one; and as many for the block.
const ROOM: usize = 1048577;

// Room in front of the block for the 200 of its day, which has some three hundred bytes at most: what is said of a block's refusal looks at both.
const FRONT: usize = 1024;

// ---- what is said of a refusal

// The date of a block, behind a 200 of so many minutes and that unit.
fn date_of(block: &[u8], minutes: u32, unit: u8) -> u64 {
    match check_block(block, 0, minutes, unit) {
        Ok(c) => c.date as u64,
        Err(_) => 0,
    }
}

fn another_date(rt: &impl Machine, page: &mut [u8], k: usize, old: u64, new: u64) {
    let p = put(page, 0, b"refused: 8, another date: the block has ");
    let q = date(page, p, new);
    let r = put(page, q, b", day ");
    let s = number(page, r, k as u64);
    let t = put(page, s, b" has ");
    let u = date(page, t, old);
    complain(rt, page, u);
}

fn too_long(rt: &impl Machine, page: &mut [u8]) {
    let p = put(
        page,
        0,
        b"refused: 1, the edited file would be longer than 1,048,576 bytes",
    );
    complain(rt, page, p);
}

// Puts a record in front of the block, with its CR LF; answers how many bytes that are, 0 where there is no room for them.
fn put_in_front(blocks: &mut [u8], record: &[u8]) -> usize
    ensures { result ≤ 1024 }
{
    let n = record.len();
    if FRONT - 2 < n {
        return 0;
    }
    put(blocks, FRONT - 2 - n, record);
    put(blocks, FRONT - 2, b"\r\n");
    n + 2
}

// A refusal of the block, placed in the text that has so many bytes before the block.
fn placed_in(x: Refusal, text: &[u8], before: usize) -> Refusal {
    if text.len() < before {
        return x;
    }
    if text.len() - before < x.place {
        return x;
    }
    Refusal {
        number: x.number,
        place: before + x.place,
        record: x.record,
        field: x.field,
    }
}

// The block's own refusal, behind the 200 whose NMI stands at a place of the file. The block ends at `end`.
fn of_block(
    rt: &impl Machine,
    page: &mut [u8],
    file: &[u8],
    nmi: usize,
    blocks: &mut [u8],
    end: usize,
    x: Refusal,
) {
    let head = record_of(file, nmi);
    let before = put_in_front(blocks, part(file, head.start, head.end));
    let text = part(blocks, FRONT - before, end);
    let y = placed_in(x, text, before);
    let p = put(page, 0, b"in the block: ");
    let q = explained_as(page, p, text, y, x);
    warn(rt, page, q);
}

// Whose refusal it is: the file's own, or that there is no such day; else the block's, or one of both together.
fn say(
    rt: &impl Machine,
    page: &mut [u8],
    file: &[u8],
    k: usize,
    blocks: &mut [u8],
    end: usize,
    x: Refusal,
) {
    match find_day(file, k) {
        Err(_) => {
            let p = refused(page, file, x);
            warn(rt, page, p);
        }
        Ok(d) => {
            if x.number == 1 {
                too_long(rt, page);
            } else if x.number == 8 {
                let old = date_of(part(file, d.start, d.end), d.length, d.unit);
                let new = date_of(part(blocks, FRONT, end), d.length, d.unit);
                another_date(rt, page, k, old, new);
            } else {
                of_block(rt, page, file, d.nmi, blocks, end, x);
            }
        }
    }
}

// ---- the command

fn edit(
    rt: &impl Machine,
    page: &mut [u8],
    room: &mut [u8],
    n: usize,
    k: usize,
    blocks: &mut [u8],
    end: usize,
) -> u8 {
    match replace_day(room, n, k, part(blocks, FRONT, end)) {
        Ok(l) => write(rt, room, l),
        Err(x) => {
            say(rt, page, part(room, 0, n), k, blocks, end, x);
            REFUSED
        }
    }
}

// The block, behind the room in front of it; answers where it ends.
fn load_block(rt: &impl Machine, blocks: &mut [u8]) -> Option<usize> {
    if blocks.len() < FRONT {
        return None;
    }
    let most = blocks.len() - FRONT;
    let m = load_word(rt, last_word(rt), &mut blocks[FRONT..])?;
    if most < m {
        return Some(blocks.len());
    }
    Some(FRONT + m)
}

fn replace(rt: &impl Machine, page: &mut [u8], room: &mut [u8], blocks: &mut [u8]) -> u8 {
    let Some(n) = load_word(rt, 2, room) else {
        return FAILED;
    };
    let Some(end) = load_block(rt, blocks) else {
        return FAILED;
    };
    match wanted_before_last(rt, page, part(room, 0, n)) {
        Ok(k) => edit(rt, page, room, n, k, blocks, end),
        Err(status) => status,
    }
}

fn run(rt: &impl Machine, alloc: Global) -> Result<u8, AllocError> {
    let mut page = [0u8; PAGE];
    let mut room = vec![in alloc; 0u8; ROOM]?;
    let mut blocks = vec![in alloc; 0u8; FRONT + ROOM]?;
    Ok(replace(rt, &mut page, &mut room, &mut blocks))
}

fn main(rt: HostRuntime) {
    finish(&rt, run(&rt, rt.alloc()));
}
