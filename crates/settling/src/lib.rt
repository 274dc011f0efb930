// The blocks of a store's used slots: how many bytes they have, and moved down over the holes between them. Which slots are used is said by a map beside the
// header, so that a slot can be left out.
#![tactic(auto)]

ghost use Rattle.std.specs.Prelude.{◌≡◌, length};
ghost use Rattle.store.specs.Moves.{live};
ghost use Rattle.settling.specs.Settling.{Settles, Settled};

use packing::pack;
use ranges::sum;
use slots::{put_offsets, read_sizes, read_starts};
use store::Header;

// The list is lent to work in.
fn live_with(memory: &[u8], h: Header, map: u64, lengths: &mut [u32]) -> usize
    requires { length lengths.old ≡ 64 }
    ensures { result ≡ live memory.now h map }
{
    read_sizes(memory, h, map, lengths);
    sum(lengths)
}

// How many bytes the blocks have.
pub fn live_bytes(memory: &[u8], h: Header, map: u64) -> usize
    ensures { result ≡ live memory.now h map }
{
    let mut lengths: [u32; 64] = [0; 64];
    live_with(memory, h, map, &mut lengths)
}

// The lists are lent to work in.
fn settle_with(
    memory: &mut [u8],
    h: Header,
    map: u64,
    places: &mut [u32],
    lengths: &mut [u32],
) -> usize
    requires { Settles memory.old h map × (length places.old ≡ 64) × (length lengths.old ≡ 64) }
    ensures { Settled memory.old h map result memory.new }
{
    read_starts(memory, h, map, places);
    read_sizes(memory, h, map, lengths);
    let a = h.room as usize;
    let e = a + h.size as usize;
    let q = pack(&mut memory[a..e], places, lengths);
    put_offsets(memory, h, map, places);
    q
}

// Moves the blocks down, in the order in which they lie, and writes their new offsets into the slots; how many bytes they have.
pub fn settle(memory: &mut [u8], h: Header, map: u64) -> usize
    requires { Settles memory.old h map }
    ensures { Settled memory.old h map result memory.new }
{
    let mut places: [u32; 64] = [0; 64];
    let mut lengths: [u32; 64] = [0; 64];
    settle_with(memory, h, map, &mut places, &mut lengths)
}
