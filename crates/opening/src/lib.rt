// Whether lent bytes are a store.
#![tactic(auto)]

ghost use Rattle.std.specs.Prelude.{◌≡◌, length};
ghost use Rattle.store.specs.Store.{ranges_laid, is_store_of};
ghost use Rattle.opening.specs.Opens.{opened_of};

use frames::is_framed;
use kept_days::all_hold_days;
use own_keys::all_own_keys;
use ranges::laid;
use slots::{read_header, read_sizes, read_starts};
use store::Header;

// The lists are lent to work in.
fn are_ranges_laid_with(memory: &[u8], h: Header, starts: &mut [u32], sizes: &mut [u32]) -> bool
    requires { (length starts.old ≡ 64) × (length sizes.old ≡ 64) }
    ensures { result ≡ ranges_laid memory.now h }
{
    read_starts(memory, h, h.map, starts);
    read_sizes(memory, h, h.map, sizes);
    laid(h.used as usize, starts, sizes)
}

// The blocks of the used slots lie within the used bytes, and no two have a byte in common.
fn are_ranges_laid(memory: &[u8], h: Header) -> bool
    ensures { result ≡ ranges_laid memory.now h }
{
    let mut starts: [u32; 64] = [0; 64];
    let mut sizes: [u32; 64] = [0; 64];
    are_ranges_laid_with(memory, h, &mut starts, &mut sizes)
}

// The blocks are checked last: it is what takes long.
#[tactic(auto, using(crate::proofs::Tests::in_order_lem, crate::proofs::Tests::few_slots))]
fn is_store(memory: &[u8], h: Header) -> bool
    ensures { result ≡ is_store_of memory.now h }
{
    is_framed(h, memory.len())
        && are_ranges_laid(memory, h)
        && all_own_keys(memory, h)
        && all_hold_days(memory, h)
}

// The header of what is a store.
pub fn open_store(memory: &[u8]) -> Option<Header>
    ensures { result ≡ opened_of memory.now }
{
    if memory.len() < 32 {
        return None;
    }
    let h = read_header(memory);
    if is_store(memory, h) {
        return Some(h);
    }
    None
}
