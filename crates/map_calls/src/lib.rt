// The calls of a tenant map, as the probe makes them: the answer is put on a page as a line, as `calls` does it, and the line says so where something that was lent
// has changed and should not have. Memory is copied before a call that may change it, so that what has changed in it is seen.
#![tactic(auto)]

mod said_lines;

ghost use Rattle.std.specs.Prelude.{◌≡◌, ◌≤◌, length};
ghost use Rattle.page.specs.Filled.{Filled};
ghost use Rattle.entries.specs.Left.{left};
ghost use Rattle.tenants.specs.Calls.{versioned_as, mapped, make_of, add_of, back_of, on_of};
ghost use Rattle.map_calls.specs.Lines.{left_text, make_text, add_text, on_text, lent_keys, lent_shares};

use calls::PLACES;
use calls::files::{BYTE_MARK, HALF_MARK};
use calls::kept::end_line;
use format::Refusal;
use map_kept::{COUNT, are_kept, filled, is_kept_after};
use page::texts::part;
use tenant_map::{add_version, back_to, make_map, map_on};
use text::bytes::put_bytes;
use versions::{count, place};

// The most key bytes.
pub const KEY_BYTES: usize = 2000;

// The bytes of a version.
const VERSION: usize = 1796;

// ---- calls that may change memory

// The line of a call that may write the count, and memory from one place up to another.
fn changed(
    page: &mut [u8],
    at: usize,
    x: Result<usize, Refusal>,
    memory: &[u8],
    was: &[u8],
    from: usize,
    to: usize,
) -> usize
    ensures { Filled page.old at (left_text (left (versioned_as x) memory.now) from to was.now) result page.new }
{
    let p = said_lines::versioned(page, at, x);
    end_line(page, p, is_kept_after(x, memory, was, from, to))
}

// The line of a call that may write the count, and a version behind those that there were.
fn added(page: &mut [u8], at: usize, x: Result<usize, Refusal>, memory: &[u8], was: &[u8]) -> usize
    ensures { Filled page.old at (add_text (left (versioned_as x) memory.now) was.now) result page.new }
{
    let from = place(count(was));
    changed(page, at, x, memory, was, from, from + VERSION)
}

// A map without versions.
pub fn make(memory: &mut [u8], copy: &mut [u8], page: &mut [u8], at: usize) -> usize
    requires { length memory.old ≤ length copy.old }
    ensures line { Filled page.old at (make_text (make_of memory.old) memory.old) result page.new }
    ensures left { memory.new ≡ (make_of memory.old).memory }
{
    let whole = memory.len();
    put_bytes(copy, 0, memory);
    let x = make_map(memory);
    changed(page, at, x, memory, part(copy, 0, whole), COUNT, COUNT)
}

pub fn add(
    memory: &mut [u8],
    copy: &mut [u8],
    first: u32,
    keys: &[u8],
    shares: &[u16],
    page: &mut [u8],
    at: usize,
) -> usize
    requires { length memory.old ≤ length copy.old }
    ensures line { Filled page.old at (add_text (add_of memory.old first keys.now shares.now) memory.old) result page.new }
    ensures left { memory.new ≡ (add_of memory.old first keys.now shares.now).memory }
{
    let whole = memory.len();
    put_bytes(copy, 0, memory);
    let x = add_version(memory, first, keys, shares);
    added(page, at, x, memory, part(copy, 0, whole))
}

// An earlier version again.
pub fn back(
    memory: &mut [u8],
    copy: &mut [u8],
    version: usize,
    first: u32,
    page: &mut [u8],
    at: usize,
) -> usize
    requires { length memory.old ≤ length copy.old }
    ensures line { Filled page.old at (add_text (back_of memory.old version first) memory.old) result page.new }
    ensures left { memory.new ≡ (back_of memory.old version first).memory }
{
    let whole = memory.len();
    put_bytes(copy, 0, memory);
    let x = back_to(memory, version, first);
    added(page, at, x, memory, part(copy, 0, whole))
}

// ---- the map on a date

fn shown(
    page: &mut [u8],
    at: usize,
    x: Result<usize, Refusal>,
    keys: &[u8],
    shares: &[u16],
) -> usize
    ensures { Filled page.old at (on_text (mapped (versioned_as x) keys.now shares.now)) result page.new }
{
    let n = filled(x);
    let p = said_lines::versioned(page, at, x);
    let q = said_lines::outputs(page, p, n, keys, shares);
    end_line(page, q, are_kept(n, keys, shares))
}

fn on_in(
    memory: &[u8],
    date: u32,
    page: &mut [u8],
    at: usize,
    keys: &mut [u8],
    shares: &mut [u16],
) -> usize
    ensures { Filled page.old at (on_text (on_of memory.now date keys.old shares.old)) result page.new }
{
    let x = map_on(memory, date, keys, shares);
    shown(page, at, x, keys, shares)
}

// Into k key bytes and s shares.
pub fn on(memory: &[u8], date: u32, k: usize, s: usize, page: &mut [u8], at: usize) -> usize
    requires { (k ≤ 2000) × (s ≤ 300) }
    ensures { Filled page.old at (on_text (on_of memory.now date (lent_keys k) (lent_shares s))) result page.new }
{
    let mut keys = [BYTE_MARK; KEY_BYTES];
    let mut shares = [HALF_MARK; PLACES];
    on_in(memory, date, page, at, &mut keys[..k], &mut shares[..s])
}
