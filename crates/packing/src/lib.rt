// Blocks in a lent room are moved down over the holes between them.
#![tactic(auto)]

ghost use Rattle.std.specs.Prelude.{◌≡◌, ◌<◌, ◌&&◌, length, leb, ltb, eqb};
ghost use Rattle.ranges.specs.Laid.{Laid};
ghost use Rattle.packing.specs.Packing.{packed, pack_of};
ghost use Rattle.packing.specs.Steps.{Next};

use moving::move_bytes;

fn wide(x: u32) -> usize
    ensures is { result ≡ x }
    ensures small { result < 4294967296 }
{
    x as usize
}

// A block of n bytes at place o, at p or behind it, is nearer than the one found.
fn nearer(n: u32, o: u32, p: usize, least: usize) -> bool
    ensures { result ≡ (ltb 0 n && leb p o && ltb o least) }
{
    let x = o as usize;
    0 < n && p <= x && x < least
}

// The block at p or behind it whose place is least; the number of ranges if there is none.
fn next_block(places: &[u32], lengths: &[u32], p: usize) -> usize
    requires { length places.now ≡ length lengths.now }
    ensures { Next places.now lengths.now p result }
{
    let mut best = places.len();
    let mut least: usize = 4294967296;
    for (i, o) in places.iter().enumerate() {
        if nearer(lengths[i], *o, p, least) {
            best = i;
            least = wide(*o);
        }
    }
    best
}

// A block of n bytes at place o, which is p.
fn is_at(n: u32, o: u32, p: usize) -> bool
    ensures { result ≡ (ltb 0 n && eqb o p) }
{
    0 < n && o as usize == p
}

// What `next_block` answers. Where range i is a block at p no other is looked at: behind the last block that moved it is the next range's, as long as blocks lie side by
// side in the order of their slots.
fn next_from(places: &[u32], lengths: &[u32], p: usize, i: usize) -> usize
    requires { length places.now ≡ length lengths.now }
    ensures { Next places.now lengths.now p result }
{
    if i < places.len() && is_at(lengths[i], places[i], p) {
        i
    } else {
        next_block(places, lengths, p)
    }
}

// Moves the blocks down, in the order in which they lie, and writes their new places; how many bytes they have.
pub fn pack(room: &mut [u8], places: &mut [u32], lengths: &[u32]) -> usize
    requires { Laid places.old lengths.now (length room.old) }
    ensures { packed result room.new places.new ≡ pack_of room.old places.old lengths.now }
{
    let mut p: usize = 0;
    let mut q: usize = 0;
    let mut guess: usize = 0;
    loop {
        let i = next_from(places, lengths, p, guess);
        if i >= places.len() {
            return q;
        }
        let o = wide(places[i]);
        let n = wide(lengths[i]);
        move_bytes(room, o, q, n);
        places[i] = q as u32;
        q += n;
        p = o + n;
        guess = i + 1;
    }
}
