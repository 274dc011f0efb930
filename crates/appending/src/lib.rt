// One version more, behind those that a tenant map has: with entries that are handed in, or with those of another version.
#![tactic(auto)]

ghost use Rattle.std.specs.Prelude.{◌≡◌, true, ◌+◌, ◌≤◌, ◌<◌, length};
ghost use Rattle.entries.specs.Left.{left};
ghost use Rattle.tenants.specs.Versions.{version, count_in, versions_in, is_map};
ghost use Rattle.tenants.specs.Calls.{versioned_as, with_version, append_of, kept_given, outputs_of};
ghost use Rattle.appending.specs.Nexts.{next_of};

use format::Refusal;
use little::put_number;
use moving::move_bytes;
use output_bytes::put_outputs;
use versions::{MOST, count, latest_date, may_follow, place};

// Whether a version may be added: behind how many, or the number of the refusal.
fn next_version(memory: &[u8], first: u32) -> Result<u32, u64>
    ensures { result ≡ next_of memory.now first }
{
    if !may_follow(latest_date(memory), first) {
        return Err(24);
    }
    let n = count(memory);
    if MOST <= n {
        return Err(23);
    }
    Ok(n)
}

// The count is written last, so that what lies behind the versions in use is not taken for one before it is whole.
fn put_given(memory: &mut [u8], n: u32, first: u32, keys: &[u8], shares: &[u16])
    requires { (57476 ≤ length memory.old) × (n ≡ count_in memory.old) × (n < 32) × (1536 ≤ length keys.now) × (128 ≤ length shares.now) }
    ensures { memory.new ≡ with_version memory.old (version first (kept_given keys.now shares.now)) }
{
    let at = place(n);
    put_number(memory, at, 4, first as u64);
    put_outputs(memory, at + 4, keys, shares);
    put_number(memory, 0, 4, (n + 1) as u64);
}

// The entries of the version behind k others.
fn put_copy(memory: &mut [u8], n: u32, k: u32, first: u32)
    requires { (57476 ≤ length memory.old) × (n ≡ count_in memory.old) × (n < 32) × (k < n) }
    ensures { memory.new ≡ with_version memory.old (version first (outputs_of (versions_in memory.old) (k + 1))) }
{
    let at = place(n);
    put_number(memory, at, 4, first as u64);
    move_bytes(memory, place(k) + 4, at + 4, 1792);
    put_number(memory, 0, 4, (n + 1) as u64);
}

// A version of 128 entries that adding takes.
pub fn append_given(
    memory: &mut [u8],
    first: u32,
    keys: &[u8],
    shares: &[u16],
) -> Result<usize, Refusal>
    requires { (is_map memory.old ≡ true) × (1536 ≤ length keys.now) × (128 ≤ length shares.now) }
    ensures { left (versioned_as result) memory.new ≡ append_of memory.old (version first (kept_given keys.now shares.now)) }
{
    let n = next_version(memory, first).map_err(Refusal::bare)?;
    put_given(memory, n, first, keys, shares);
    Ok(n as usize + 1)
}

// A version with the entries of the one behind k others.
pub fn append_copy(memory: &mut [u8], k: u32, first: u32) -> Result<usize, Refusal>
    requires { (is_map memory.old ≡ true) × (k < count_in memory.old) }
    ensures { left (versioned_as result) memory.new ≡ append_of memory.old (version first (outputs_of (versions_in memory.old) (k + 1))) }
{
    let n = next_version(memory, first).map_err(Refusal::bare)?;
    put_copy(memory, n, k, first);
    Ok(n as usize + 1)
}
