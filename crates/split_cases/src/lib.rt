// The probe's cases that split a day's total over the outputs. A map or a store that the case does not hand in is the probe's memory, of which `size` bytes are lent. No
// contract can say what is read, so those that read are proved safe, and have none; what they answer is put together by `split_calls`.
#![tactic(auto)]

ghost use Rattle.std.specs.Prelude.{◌≤◌, length};

use calls::PLACES;
use input::bytes::{Cursor, fill_line};
use input::numbers::{head, line};
use input::{Going, byte};
use machine::Machine;
use map_calls::KEY_BYTES;
use page::texts::part;
use sheet::given_lists::{below, halves_of};
use split_calls::{day, stored, total};

// The most bytes that an NMI or a suffix can be handed in as.
const MOST_KEY: usize = 64;

// An NMI, a suffix and keys, as long as they can be.
const MOST_TEXT: usize = 2128;

// The most bytes that a map can be handed in as.
const MOST_MAP: usize = 60000;

// One more than the highest share of two bytes.
const SHARES: u64 = 65536;

// NMI, suffix and what is handed in behind them are read in one stretch: where each of them ends.
#[derive(Clone, Copy)]
struct Ends {
    nmi: usize,
    suffix: usize,
    all: usize,
}

// ---- a total

// A line of shares that can be lent, and the case's own line's end.
fn shares_in(rt: &impl Machine, buf: &mut [u8], c: Cursor, shares: &mut [u64]) -> Option<Cursor> {
    let after = line(rt, buf, c, shares)?;
    if !below(shares, SHARES) {
        return None;
    }
    byte(rt, buf, after, b'\n')
}

// The shares as the call takes them.
fn total_given(
    sum: u64,
    e: Ends,
    text: &[u8],
    shares: &[u64],
    p: usize,
    page: &mut [u8],
    at: usize,
) -> usize
    requires { (length shares.now ≤ 300) × (p ≤ 300) }
{
    let halves = halves_of(shares);
    let s = shares.len();
    total(
        sum,
        part(text, 0, e.nmi),
        part(text, e.nmi, e.suffix),
        part(text, e.suffix, e.all),
        &halves[..s],
        p,
        page,
        at,
    )
}

// Text and shares are lent to work in.
fn split_with(
    rt: &impl Machine,
    buf: &mut [u8],
    c: Cursor,
    sum: u64,
    e: Ends,
    text: &mut [u8],
    shares: &mut [u64],
    p: usize,
    page: &mut [u8],
    at: usize,
) -> Option<Going>
    requires { (length shares.old ≤ 300) × (p ≤ 300) }
{
    let behind = fill_line(rt, buf, c, e.all, text)?;
    let after = shares_in(rt, buf, behind, shares)?;
    Some(Going::On(after, total_given(sum, e, text, shares, p, page, at)))
}

// Behind the word and its space, which tells it from the splitting of a day.
pub fn split_case(
    rt: &impl Machine,
    buf: &mut [u8],
    c: Cursor,
    page: &mut [u8],
    at: usize,
) -> Option<Going> {
    let mut numbers = [0u64; 6];
    let after = head(rt, buf, c, b"", &mut numbers)?;
    let n = numbers[1] as usize;
    let k = numbers[2] as usize;
    let l = numbers[3] as usize;
    let s = numbers[4] as usize;
    let p = numbers[5] as usize;
    if MOST_KEY < n || MOST_KEY < k || KEY_BYTES < l || PLACES < s || PLACES < p {
        return None;
    }
    let e = Ends {
        nmi: n,
        suffix: n + k,
        all: n + k + l,
    };
    let mut text = [0u8; MOST_TEXT];
    let mut shares = [0u64; PLACES];
    split_with(
        rt,
        buf,
        after,
        numbers[0],
        e,
        &mut text,
        &mut shares[..s],
        p,
        page,
        at,
    )
}

// ---- a day

// Of a file, by the map in memory.
pub fn split_day_case(
    rt: &impl Machine,
    buf: &mut [u8],
    c: Cursor,
    file: &mut [u8],
    memory: &[u8],
    size: usize,
    page: &mut [u8],
    at: usize,
) -> Option<Going> {
    let mut numbers = [0u64; 3];
    let behind = head(rt, buf, c, b"ay ", &mut numbers)?;
    let k = numbers[0] as usize;
    let p = numbers[1] as usize;
    let n = numbers[2] as usize;
    if PLACES < p {
        return None;
    }
    let after = fill_line(rt, buf, behind, n, file)?;
    Some(Going::On(
        after,
        day(part(file, 0, n), k, part(memory, 0, size), p, page, at),
    ))
}

// NMI, suffix and map are read into lent room.
fn stored_with(
    rt: &impl Machine,
    buf: &mut [u8],
    c: Cursor,
    e: Ends,
    text: &mut [u8],
    date: u32,
    store: &[u8],
    p: usize,
    page: &mut [u8],
    at: usize,
) -> Option<Going>
    requires { p ≤ 300 }
{
    let after = fill_line(rt, buf, c, e.all, text)?;
    Some(Going::On(
        after,
        stored(
            store,
            part(text, 0, e.nmi),
            part(text, e.nmi, e.suffix),
            date,
            part(text, e.suffix, e.all),
            p,
            page,
            at,
        ),
    ))
}

// Of the store in memory, by a map that is read into room that any of them fits in.
pub fn split_stored_case(
    rt: &impl Machine,
    buf: &mut [u8],
    c: Cursor,
    text: &mut [u8],
    memory: &[u8],
    size: usize,
    page: &mut [u8],
    at: usize,
) -> Option<Going> {
    let mut numbers = [0u64; 5];
    let after = head(rt, buf, c, b"tored ", &mut numbers)?;
    let n = numbers[0] as usize;
    let k = numbers[1] as usize;
    let date = u32::try_from(numbers[2]).ok()?;
    let p = numbers[3] as usize;
    let m = numbers[4] as usize;
    if MOST_KEY < n || MOST_KEY < k || PLACES < p || MOST_MAP < m {
        return None;
    }
    let e = Ends {
        nmi: n,
        suffix: n + k,
        all: n + k + m,
    };
    stored_with(
        rt,
        buf,
        after,
        e,
        text,
        date,
        part(memory, 0, size),
        p,
        page,
        at,
    )
}
