// The probe's case that hands in a day to be written: its first line, its six lists and its text are read from standard input, the day is lent to the
// call, and the block is written out behind its answer. What the numbers mean is said by functions that have contracts. No contract can say what is read or
// written, so those that do it are proved safe, and have none.
#![tactic(auto)]

pub mod given_lists;
pub mod puts;

ghost use Rattle.std.specs.Prelude.{◌≡◌, ◌≤◌};
ghost use Rattle.sheet.specs.Sheets.{sheet_of, can_be, day_of, places_of, least_of, stretch_of, are_narrow};

use calls::PLACES;
use calls::blocks::{EMPTY, Wrote, block};
use format::DayHead;
use given_lists::{below, bytes_of, halves_of, sizes_of};
use input::Going;
use input::bytes::{Cursor, fill_line};
use input::numbers::{head, line};
use machine::Machine;
use output::write;
use page::texts::part;

// Six lists, one behind the other.
const ALL_PLACES: usize = 1800;

const MOST_ROOM: usize = 131072;

const MOST_TEXT: usize = 4096;

// The first line of the case: the day's head, how much room is lent, how many places each list has, and how long the text is.
#[derive(Clone, Copy)]
struct Sheet {
    date: u64,
    length: u64,
    update: u64,
    load: u64,
    unit: u64,
    room: usize,
    values: usize,
    flags: usize,
    methods: usize,
    reasons: usize,
    starts: usize,
    lengths: usize,
    text: usize,
}

#[tactic(auto, unfolding(crate::specs::Sheets::sheet_of))]
fn sheet_of(n: [u64; 13]) -> Sheet
    ensures { result ≡ sheet_of n }
{
    Sheet {
        date: n[0],
        length: n[1],
        update: n[2],
        load: n[3],
        unit: n[4],
        room: n[5] as usize,
        values: n[6] as usize,
        flags: n[7] as usize,
        methods: n[8] as usize,
        reasons: n[9] as usize,
        starts: n[10] as usize,
        lengths: n[11] as usize,
        text: n[12] as usize,
    }
}

// Whether each number is one that the interface, or the case, can hold.
#[tactic(auto, unfolding(crate::specs::Sheets::can_be))]
fn can_be(s: Sheet) -> bool
    ensures { result ≡ can_be s }
{
    s.date <= u64::from(u32::MAX)
        && s.length <= u64::from(u32::MAX)
        && s.unit <= u64::from(u8::MAX)
        && s.room <= MOST_ROOM
        && s.text <= MOST_TEXT
}

#[tactic(auto, unfolding(crate::specs::Sheets::places_of))]
fn places(s: Sheet, list: usize) -> usize
    ensures { result ≡ places_of s list }
{
    match list {
        0 => s.values,
        1 => s.flags,
        2 => s.methods,
        3 => s.reasons,
        4 => s.starts,
        _ => s.lengths,
    }
}

// ---- the lists

// The six lines, each into its stretch of the lists.
fn lists_in(
    rt: &impl Machine,
    buf: &mut [u8],
    c: Cursor,
    s: Sheet,
    lists: &mut [u64],
) -> Option<Cursor> {
    let mut now = c;
    for k in 0..6 {
        now = stretch_in(rt, buf, now, places(s, k), lists, k * PLACES)?;
    }
    Some(now)
}

// A line of n numbers, from a place of the lists on.
fn stretch_in(
    rt: &impl Machine,
    buf: &mut [u8],
    c: Cursor,
    n: usize,
    lists: &mut [u64],
    from: usize,
) -> Option<Cursor> {
    if PLACES < n {
        return None;
    }
    line(rt, buf, c, lists.get_mut(from..)?.get_mut(..n)?)
}

// The first n places of a list.
#[tactic(auto, unfolding(crate::specs::Sheets::stretch_of, crate::specs::Sheets::least_of))]
fn stretch(lists: &[u64], list: usize, n: usize) -> &[u64]
    requires { list ≤ 5 }
    ensures { result.now ≡ stretch_of lists.now list n }
{
    let from = list * PLACES;
    let end = from + least(n, PLACES);
    &lists[from.min(lists.len())..end.min(lists.len())]
}

// Whether flags, methods and reasons are in their types' range.
#[tactic(auto, unfolding(crate::specs::Sheets::are_narrow))]
fn are_narrow(s: Sheet, lists: &[u64]) -> bool
    ensures { result ≡ are_narrow s lists.now }
{
    below(stretch(lists, 1, s.flags), 256)
        && below(stretch(lists, 2, s.methods), 256)
        && below(stretch(lists, 3, s.reasons), 65536)
}

// ---- the answer

#[tactic(auto, unfolding(crate::specs::Sheets::least_of))]
fn least(a: usize, b: usize) -> usize
    ensures is { result ≡ least_of a b }
    ensures within { (result ≤ a) × (result ≤ b) }
{
    a.min(b)
}

// The block behind its line, which is written out first.
fn block_out(rt: &impl Machine, page: &[u8], room: &[u8], x: Wrote) -> usize {
    if x.bytes == 0 {
        return x.at;
    }
    write(rt, page, x.at);
    write(rt, room, x.bytes);
    0
}

#[tactic(auto, unfolding(crate::specs::Sheets::day_of))]
fn day_of(s: Sheet) -> DayHead
    ensures { result ≡ day_of s }
{
    DayHead {
        date: (s.date % 4294967296) as u32,
        length: (s.length % 4294967296) as u32,
        update: s.update,
        load: s.load,
        unit: (s.unit % 256) as u8,
    }
}

fn write_in(
    rt: &impl Machine,
    day: DayHead,
    values: &[u64],
    flags: &[u8],
    methods: &[u8],
    reasons: &[u16],
    starts: &[usize],
    lengths: &[usize],
    text: &[u8],
    room: &mut [u8],
    page: &mut [u8],
    at: usize,
) -> usize {
    let x = block(
        day, values, flags, methods, reasons, starts, lengths, text, room, page, at,
    );
    block_out(rt, page, room, x)
}

// The day's places in lists of their type, and a room of its own.
fn write_places(
    rt: &impl Machine,
    s: Sheet,
    lists: &[u64],
    flags: &[u8],
    methods: &[u8],
    reasons: &[u16],
    text: &[u8],
    page: &mut [u8],
    at: usize,
) -> usize {
    let starts = sizes_of(stretch(lists, 4, s.starts));
    let lengths = sizes_of(stretch(lists, 5, s.lengths));
    let a = least(s.starts, PLACES);
    let l = least(s.lengths, PLACES);
    let n = least(s.room, MOST_ROOM);
    let mut room = [EMPTY; MOST_ROOM];
    write_in(
        rt,
        day_of(s),
        stretch(lists, 0, s.values),
        flags,
        methods,
        reasons,
        &starts[..a],
        &lengths[..l],
        text,
        &mut room[..n],
        page,
        at,
    )
}

// The day's marks in lists of their types.
fn write_answer(
    rt: &impl Machine,
    s: Sheet,
    lists: &[u64],
    text: &[u8],
    page: &mut [u8],
    at: usize,
) -> usize {
    let flags = bytes_of(stretch(lists, 1, s.flags));
    let methods = bytes_of(stretch(lists, 2, s.methods));
    let reasons = halves_of(stretch(lists, 3, s.reasons));
    let f = least(s.flags, PLACES);
    let m = least(s.methods, PLACES);
    let r = least(s.reasons, PLACES);
    write_places(
        rt,
        s,
        lists,
        &flags[..f],
        &methods[..m],
        &reasons[..r],
        text,
        page,
        at,
    )
}

// The lists and the text behind the first line.
fn day_in(
    rt: &impl Machine,
    buf: &mut [u8],
    c: Cursor,
    s: Sheet,
    page: &mut [u8],
    at: usize,
) -> Option<Going> {
    let mut lists = [0u64; ALL_PLACES];
    let a = lists_in(rt, buf, c, s, &mut lists)?;
    if !are_narrow(s, &lists) {
        return None;
    }
    let mut text = [0u8; MOST_TEXT];
    let b = fill_line(rt, buf, a, s.text, &mut text)?;
    Some(Going::On(
        b,
        write_answer(rt, s, &lists, part(&text, 0, s.text), page, at),
    ))
}

pub fn write_case(
    rt: &impl Machine,
    buf: &mut [u8],
    c: Cursor,
    page: &mut [u8],
    at: usize,
) -> Option<Going> {
    let mut numbers = [0u64; 13];
    let a = head(rt, buf, c, b"rite ", &mut numbers)?;
    let s = sheet_of(numbers);
    if !can_be(s) {
        return None;
    }
    day_in(rt, buf, a, s, page, at)
}
