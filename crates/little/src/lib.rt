// Pieces of lent memory, and numbers in it, the lowest byte first. Reading is total: bytes that the memory lacks count as 0.
#![tactic(auto)]

ghost use Rattle.std.specs.Prelude.{◌≡◌, ◌+◌, ◌≤◌, ◌<◌, ◌^◌, length};
ghost use Rattle.std.proofs.lemmas.List.Edits.{sets};
ghost use Rattle.entries.specs.Little.{piece, number, number_at, in_bytes};

// k bytes from place `at` on, as far as the memory goes.
pub fn piece_at(m: &[u8], at: usize, k: usize) -> &[u8]
    ensures { result.now ≡ piece m.now at k }
{
    let a = at.min(m.len());
    let e = a + k.min(m.len() - a);
    &m[a..e]
}

// The number that at most eight bytes hold, from the last byte to the first.
fn number_in(s: &[u8]) -> u64
    requires { length s.now ≤ 8 }
    ensures is { result ≡ number s.now }
    ensures small { result < 256 ^ length s.now }
{
    let mut v: u64 = 0;
    for b in s.iter().rev() {
        v = v * 256 + u64::from(*b);
    }
    v
}

// The number in the k bytes from place `at` on.
pub fn number_at(m: &[u8], at: usize, k: usize) -> u64
    requires { k ≤ 8 }
    ensures is { result ≡ number_at m.now at k }
    ensures small { result < 256 ^ k }
{
    number_in(piece_at(m, at, k))
}

pub fn u8_at(m: &[u8], at: usize) -> u8
    ensures { result ≡ number_at m.now at 1 }
{
    number_at(m, at, 1) as u8
}

// The number in the four bytes from place `at` on, where there are four.
fn whole_u32_at(m: &[u8], at: usize) -> u32
    requires { at + 4 ≤ length m.now }
    ensures { result ≡ number_at m.now at 4 }
{
    u32::from_le_bytes([m[at], m[at + 1], m[at + 2], m[at + 3]])
}

// Dates and offsets of slots are asked for most often: the compiler reads four bytes that are there at once.
pub fn u32_at(m: &[u8], at: usize) -> u32
    ensures { result ≡ number_at m.now at 4 }
{
    if at < m.len() && 4 <= m.len() - at {
        whole_u32_at(m, at)
    } else {
        number_at(m, at, 4) as u32
    }
}

pub fn u64_at(m: &[u8], at: usize) -> u64
    ensures { result ≡ number_at m.now at 8 }
{
    number_at(m, at, 8)
}

// Writes a number into the k bytes from place `at` on, as far as the memory goes.
pub fn put_number(m: &mut [u8], at: usize, k: usize, n: u64)
    ensures { m.new ≡ sets m.old at (in_bytes k n) }
{
    if m.len() <= at {
        return;
    }
    let e = at + k.min(m.len() - at);
    let mut v = n;
    for b in m[at..e].iter_mut() {
        *b = (v % 256) as u8;
        v /= 256;
    }
}
