// Whether what was lent to a call of a tenant map is as it was, but for what the call may write.
#![tactic(auto)]

ghost use Rattle.std.specs.Prelude.{◌≡◌, ◌≤◌};
ghost use Rattle.tenants.specs.Calls.{versioned_as};
ghost use Rattle.map_kept.specs.Kept.{kept_but, kept_after, filled_in, lent_kept};

use calls::files::{BYTE_MARK, HALF_MARK};
use calls::kept;
use edit_calls::is_kept;
use format::Refusal;
use leaf::bytes::same_bytes;
use page::texts::part;

// The count's bytes.
pub const COUNT: usize = 4;

// Memory behind the count, but for the bytes from one place up to another.
#[tactic(auto, unfolding(crate::specs::Kept::kept_but))]
fn is_kept_but(memory: &[u8], was: &[u8], from: usize, to: usize) -> bool
    ensures { result ≡ kept_but from to memory.now was.now }
{
    same_bytes(part(memory, COUNT, from), part(was, COUNT, from)) && is_kept(memory, was, to)
}

// The same behind an accepted call, all of memory behind a refusal.
pub fn is_kept_after(
    x: Result<usize, Refusal>,
    memory: &[u8],
    was: &[u8],
    from: usize,
    to: usize,
) -> bool
    ensures { result ≡ kept_after (versioned_as x) from to memory.now was.now }
{
    match x {
        Ok(_) => is_kept_but(memory, was, from, to),
        Err(_) => same_bytes(memory, was),
    }
}

// How many outputs the lists hold behind the call.
pub fn filled(x: Result<usize, Refusal>) -> usize
    ensures is { result ≡ filled_in (versioned_as x) }
    ensures few { result ≤ 128 }
{
    match x {
        Ok(_) => 128,
        Err(_) => 0,
    }
}

// The lists behind n outputs.
#[tactic(auto, unfolding(crate::specs::Kept::lent_kept))]
pub fn are_kept(n: usize, keys: &[u8], shares: &[u16]) -> bool
    requires { n ≤ 128 }
    ensures { result ≡ lent_kept n keys.now shares.now }
{
    kept::bytes(keys, 12 * n, BYTE_MARK) && kept::halves(shares, n, HALF_MARK)
}
