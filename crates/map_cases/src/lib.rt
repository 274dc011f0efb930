// The probe's cases of a tenant map. The probe has one memory for stores and maps, of which `size` bytes are lent. No contract can say what is read, so those that read
// are proved safe, and have none; what they answer is put together by `map_calls`.
#![tactic(auto)]

ghost use Rattle.std.specs.Prelude.{◌≤◌, length};

use calls::{PLACES, lent};
use input::bytes::{Cursor, fill_line};
use input::numbers::{head, head_alone, line};
use input::{Going, byte, text};
use machine::Machine;
use map_calls::{KEY_BYTES, add, back, make, on};
use page::texts::part;
use sheet::given_lists::{below, halves_of};

// One more than the highest share of two bytes.
const SHARES: u64 = 65536;

pub fn make_map_case(
    rt: &impl Machine,
    buf: &mut [u8],
    c: Cursor,
    memory: &mut [u8],
    size: usize,
    copy: &mut [u8],
    page: &mut [u8],
    at: usize,
) -> Option<Going> {
    let after = text(rt, buf, c, b"ap\n\n")?;
    Some(Going::On(after, make(lent(memory, size, copy.len()), copy, page, at)))
}

// ---- a version is added

// Key bytes, a line of shares, and the case's own line's end.
fn entries_in(
    rt: &impl Machine,
    buf: &mut [u8],
    c: Cursor,
    k: usize,
    keys: &mut [u8],
    shares: &mut [u64],
) -> Option<Cursor> {
    let behind = fill_line(rt, buf, c, k, keys)?;
    let after = line(rt, buf, behind, shares)?;
    byte(rt, buf, after, b'\n')
}

// The shares as the call takes them.
fn add_given(
    memory: &mut [u8],
    copy: &mut [u8],
    first: u32,
    keys: &[u8],
    shares: &[u64],
    page: &mut [u8],
    at: usize,
) -> usize
    requires { (length memory.old ≤ length copy.old) × (length shares.now ≤ 300) }
{
    let halves = halves_of(shares);
    let s = shares.len();
    add(memory, copy, first, keys, &halves[..s], page, at)
}

// Keys and shares are lent to work in.
fn add_with(
    rt: &impl Machine,
    buf: &mut [u8],
    c: Cursor,
    memory: &mut [u8],
    size: usize,
    copy: &mut [u8],
    first: u32,
    k: usize,
    keys: &mut [u8],
    shares: &mut [u64],
    page: &mut [u8],
    at: usize,
) -> Option<Going>
    requires { length shares.old ≤ 300 }
{
    let after = entries_in(rt, buf, c, k, keys, shares)?;
    if !below(shares, SHARES) {
        return None;
    }
    Some(Going::On(
        after,
        add_given(
            lent(memory, size, copy.len()),
            copy,
            first,
            part(keys, 0, k),
            shares,
            page,
            at,
        ),
    ))
}

pub fn add_case(
    rt: &impl Machine,
    buf: &mut [u8],
    c: Cursor,
    memory: &mut [u8],
    size: usize,
    copy: &mut [u8],
    page: &mut [u8],
    at: usize,
) -> Option<Going> {
    let mut numbers = [0u64; 3];
    let after = head(rt, buf, c, b"dd ", &mut numbers)?;
    let first = u32::try_from(numbers[0]).ok()?;
    let k = numbers[1] as usize;
    let s = numbers[2] as usize;
    if PLACES < s {
        return None;
    }
    let mut keys = [0u8; KEY_BYTES];
    let mut shares = [0u64; PLACES];
    add_with(
        rt,
        buf,
        after,
        memory,
        size,
        copy,
        first,
        k,
        &mut keys,
        &mut shares[..s],
        page,
        at,
    )
}

// ---- a version again, and the map on a date

pub fn back_case(
    rt: &impl Machine,
    buf: &mut [u8],
    c: Cursor,
    memory: &mut [u8],
    size: usize,
    copy: &mut [u8],
    page: &mut [u8],
    at: usize,
) -> Option<Going> {
    let mut numbers = [0u64; 2];
    let after = head_alone(rt, buf, c, b"ck ", &mut numbers)?;
    let version = numbers[0] as usize;
    let first = u32::try_from(numbers[1]).ok()?;
    Some(Going::On(
        after,
        back(
            lent(memory, size, copy.len()),
            copy,
            version,
            first,
            page,
            at,
        ),
    ))
}

pub fn on_case(
    rt: &impl Machine,
    buf: &mut [u8],
    c: Cursor,
    memory: &[u8],
    size: usize,
    page: &mut [u8],
    at: usize,
) -> Option<Going> {
    let mut numbers = [0u64; 3];
    let after = head_alone(rt, buf, c, b"n ", &mut numbers)?;
    let date = u32::try_from(numbers[0]).ok()?;
    let k = numbers[1] as usize;
    let s = numbers[2] as usize;
    if KEY_BYTES < k || PLACES < s {
        return None;
    }
    Some(Going::On(after, on(part(memory, 0, size), date, k, s, page, at)))
}
