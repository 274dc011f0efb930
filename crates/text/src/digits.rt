// Numbers by their digits: so many, or as many as they have.
ghost use Rattle.std.specs.Prelude.{◌≡◌, ◌+◌, ◌≤◌, length};
ghost use Rattle.ground.specs.Digits.{padded, width, dec};
ghost use Rattle.ground.specs.Room.{Put};

// How many digits n has, 1 at least.
pub fn digits_len(n: u64) -> usize
    ensures { (result ≡ width n) × (result ≤ 20) }
{
    if n == 0 { 1 } else { n.ilog10() as usize + 1 }
}

// The last k digits of n, written from the last one on.
pub fn put_digits(room: &mut [u8], at: usize, k: usize, n: u64) -> usize
    requires { at + k ≤ length room.old }
    ensures { Put room.old at (padded k n) result room.new }
{
    let mut m = n;
    for j in (0..k).rev() {
        room[at + j] = b'0' + (m % 10) as u8;
        m /= 10;
    }
    at + k
}

// n without leading zeros.
pub fn put_dec(room: &mut [u8], at: usize, n: u64) -> usize
    requires { at + length (dec n) ≤ length room.old }
    ensures { Put room.old at (dec n) result room.new }
{
    let w = digits_len(n);
    put_digits(room, at, w, n)
}
