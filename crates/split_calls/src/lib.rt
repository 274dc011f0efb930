// The calls that split a day's total over the outputs, as the probe makes them: the answer is put on a page as a line, as `calls` does it, with the parts of 128
// outputs behind it where they were set, and the line says so where one of the other parts that were lent has changed.
#![tactic(auto)]

mod said_lines;

ghost use Rattle.std.specs.Prelude.{◌≡◌, ◌≤◌};
ghost use Rattle.page.specs.Filled.{Filled};
ghost use Rattle.entries.specs.Keys.{key};
ghost use Rattle.entries.specs.Left.{left};
ghost use Rattle.splits.specs.Calls.{split_as, split_of, split_day_of, split_stored_of};
ghost use Rattle.split_calls.specs.Lines.{set_in, split_text, lent_parts};

use calls::PLACES;
use calls::files::WIDE_MARK;
use calls::kept::{end_line, wide};
use format::Refusal;
use splitter::{split, split_day, split_stored};

// How many parts the call has set.
fn set_parts(x: Result<usize, Refusal>) -> usize
    ensures { result ≡ set_in (split_as x) }
{
    match x {
        Ok(_) => 128,
        Err(_) => 0,
    }
}

fn shown(page: &mut [u8], at: usize, x: Result<usize, Refusal>, parts: &[u64]) -> usize
    ensures { Filled page.old at (split_text (left (split_as x) parts.now)) result page.new }
{
    let n = set_parts(x);
    let p = said_lines::split(page, at, x);
    let q = said_lines::parts(page, p, n, parts);
    end_line(page, q, wide(parts, n, WIDE_MARK))
}

// ---- a total

fn total_in(
    sum: u64,
    nmi: &[u8],
    suffix: &[u8],
    keys: &[u8],
    shares: &[u16],
    page: &mut [u8],
    at: usize,
    parts: &mut [u64],
) -> usize
    ensures { Filled page.old at (split_text (split_of sum nmi.now suffix.now keys.now shares.now parts.old)) result page.new }
{
    let x = split(sum, nmi, suffix, keys, shares, parts);
    shown(page, at, x, parts)
}

// A total that is handed in, into p parts.
pub fn total(
    sum: u64,
    nmi: &[u8],
    suffix: &[u8],
    keys: &[u8],
    shares: &[u16],
    p: usize,
    page: &mut [u8],
    at: usize,
) -> usize
    requires { p ≤ 300 }
    ensures { Filled page.old at (split_text (split_of sum nmi.now suffix.now keys.now shares.now (lent_parts p))) result page.new }
{
    let mut parts = [WIDE_MARK; PLACES];
    total_in(sum, nmi, suffix, keys, shares, page, at, &mut parts[..p])
}

// ---- a day

fn day_in(
    file: &[u8],
    k: usize,
    memory: &[u8],
    page: &mut [u8],
    at: usize,
    parts: &mut [u64],
) -> usize
    ensures { Filled page.old at (split_text (split_day_of file.now k memory.now parts.old)) result page.new }
{
    let x = split_day(file, k, memory, parts);
    shown(page, at, x, parts)
}

// Day k of a file by the map in memory, into p parts.
pub fn day(file: &[u8], k: usize, memory: &[u8], p: usize, page: &mut [u8], at: usize) -> usize
    requires { p ≤ 300 }
    ensures { Filled page.old at (split_text (split_day_of file.now k memory.now (lent_parts p))) result page.new }
{
    let mut parts = [WIDE_MARK; PLACES];
    day_in(file, k, memory, page, at, &mut parts[..p])
}

fn stored_in(
    store: &[u8],
    nmi: &[u8],
    suffix: &[u8],
    date: u32,
    memory: &[u8],
    page: &mut [u8],
    at: usize,
    parts: &mut [u64],
) -> usize
    ensures { Filled page.old at (split_text (split_stored_of store.now (key nmi.now suffix.now date) memory.now parts.old)) result page.new }
{
    let x = split_stored(store, nmi, suffix, date, memory, parts);
    shown(page, at, x, parts)
}

// The day that a store holds under a key, by the map in memory, into p parts.
pub fn stored(
    store: &[u8],
    nmi: &[u8],
    suffix: &[u8],
    date: u32,
    memory: &[u8],
    p: usize,
    page: &mut [u8],
    at: usize,
) -> usize
    requires { p ≤ 300 }
    ensures { Filled page.old at (split_text (split_stored_of store.now (key nmi.now suffix.now date) memory.now (lent_parts p))) result page.new }
{
    let mut parts = [WIDE_MARK; PLACES];
    stored_in(store, nmi, suffix, date, memory, page, at, &mut parts[..p])
}
