// Bytes as they are, and a part of a lent text.
ghost use Rattle.std.specs.Prelude.{◌≡◌, true, [], ◌∷◌, ◌+◌, ◌≤◌, ◌<◌, length, take, drop};
ghost use Rattle.ground.specs.Room.{Put};
ghost use Rattle.text.specs.Inside.{inside};

pub fn put_byte(room: &mut [u8], at: usize, b: u8) -> usize
    requires { at < length room.old }
    ensures { Put room.old at (b ∷ []) result room.new }
{
    room[at] = b;
    at + 1
}

pub fn put_bytes(room: &mut [u8], at: usize, src: &[u8]) -> usize
    requires { at + length src.now ≤ length room.old }
    ensures { Put room.old at src.now result room.new }
{
    let end = at + src.len();
    room[at..end].copy_from_slice(src);
    end
}

// The description that starts at s of the text and has n bytes. An empty one may start anywhere, so nothing is cut out for it.
pub fn put_part(room: &mut [u8], at: usize, text: &[u8], s: usize, n: usize) -> usize
    requires { (inside text.now s n ≡ true) × (at + n ≤ length room.old) }
    ensures { Put room.old at (take n (drop s text.now)) result room.new }
{
    if n == 0 {
        at
    } else {
        put_bytes(room, at, &text[s..s + n])
    }
}
