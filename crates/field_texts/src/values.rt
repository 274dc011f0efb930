// Values: whole units, and millionths behind a point, without needless zeros.
ghost use Rattle.std.specs.Prelude.{◌≡◌, ◌+◌, ◌≤◌, length};
ghost use Rattle.ground.specs.Room.{Put};
ghost use Rattle.format.specs.Block.{value_text};
ghost use Rattle.field_texts.specs.Trims.{Trims};

use text::bytes::put_byte;
use text::digits::{digits_len, put_dec, put_digits};

const MILLION: u64 = 1_000_000;

// Decimals without the zeros at their end: how many are left, and the number that they write.
#[derive(Clone, Copy)]
struct Decimals {
    places: usize,
    number: u64,
}

fn trim(f: u64) -> Decimals
    ensures { Trims f result.places result.number }
{
    let mut number = f;
    for places in (1..=6).rev() {
        if number % 10 != 0 {
            return Decimals { places, number };
        }
        number /= 10;
    }
    Decimals { places: 0, number }
}

pub fn value_len(v: u64) -> usize
    ensures { (result ≡ length (value_text v)) × (result ≤ 27) }
{
    let w = digits_len(v / MILLION);
    let f = v % MILLION;
    if f == 0 { w } else { w + 1 + trim(f).places }
}

pub fn put_value(room: &mut [u8], at: usize, v: u64) -> usize
    requires { at + length (value_text v) ≤ length room.old }
    ensures { Put room.old at (value_text v) result room.new }
{
    let e = put_dec(room, at, v / MILLION);
    let f = v % MILLION;
    if f == 0 {
        e
    } else {
        let t = trim(f);
        let d = put_byte(room, e, b'.');
        put_digits(room, d, t.places, t.number)
    }
}
