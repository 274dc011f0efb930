// Bytes moved inside one lent list, up or down, also where the two stretches overlap; and a stretch of a file at its start replaced.
#![tactic(auto)]

ghost use Rattle.std.specs.Prelude.{◌≡◌, ◌-◌, ◌≤◌};
ghost use Rattle.moving.specs.Moving.{moved, Within, Fitting, Spliced};

use text::bytes::put_bytes;

// How many bytes are moved at once.
const PIECE: usize = 64;

// All the bytes are read before the first is stored, so it is right whatever the overlap. A whole piece the compiler loads and stores in a few instructions.
fn move_piece(room: &mut [u8], a: usize, b: usize, n: usize)
    requires { Within room.old a b n × (n ≤ 64) }
    ensures { room.new ≡ moved room.old a b n }
{
    let mut piece = [0u8; PIECE];
    put_bytes(&mut piece, 0, &room[a..a + n]);
    put_bytes(room, b, &piece[..n]);
}

// From the first byte on: right where the bytes go down.
fn move_down(room: &mut [u8], a: usize, b: usize, n: usize)
    requires { Within room.old a b n × (b ≤ a) }
    ensures { room.new ≡ moved room.old a b n }
{
    let pieces = n / PIECE;
    for k in 0..pieces {
        move_piece(room, a + k * PIECE, b + k * PIECE, PIECE);
    }
    let i = pieces * PIECE;
    move_piece(room, a + i, b + i, n - i);
}

// From the last byte on: right where they go up.
fn move_up(room: &mut [u8], a: usize, b: usize, n: usize)
    requires { Within room.old a b n × (a ≤ b) }
    ensures { room.new ≡ moved room.old a b n }
{
    let rest = n % PIECE;
    for k in (0..n / PIECE).rev() {
        let i = rest + k * PIECE;
        move_piece(room, a + i, b + i, PIECE);
    }
    move_piece(room, a, b, rest);
}

// The n bytes from place a on are stored from place b on. Bytes that stay where they are cost nothing.
// The library's `copy_within` moves byte by byte.
pub fn move_bytes(room: &mut [u8], a: usize, b: usize, n: usize)
    requires { Within room.old a b n }
    ensures { room.new ≡ moved room.old a b n }
{
    if b < a {
        move_down(room, a, b, n);
    } else if a < b {
        move_up(room, a, b, n);
    }
}

// The tail of a file of n bytes, its bytes from place e on, goes to place b.
fn move_tail(room: &mut [u8], n: usize, e: usize, b: usize)
    requires { (e ≤ n) × Within room.old e b (n - e) }
    ensures { room.new ≡ moved room.old e b (n - e) }
{
    move_bytes(room, e, b, n - e);
}

// The file is the first n bytes of the room; the block takes the place of its bytes a up to e. Answers the file's new length. The tail goes to its new place
// before the block is written, which may lie over its old one. Nothing behind the new end is touched.
pub fn splice(room: &mut [u8], n: usize, a: usize, e: usize, block: &[u8]) -> usize
    requires { Fitting room.old n a e block.now }
    ensures { Spliced room.old n a e block.now result room.new }
{
    let b = a + block.len();
    move_tail(room, n, e, b);
    put_bytes(room, a, block);
    b + (n - e)
}
