// A day's values as text, each with a comma behind it: measured first, and then written.
#![tactic(auto)]

ghost use Rattle.std.specs.Prelude.{◌≡◌, ◌+◌, ◌≤◌, length};
ghost use Rattle.ground.specs.Room.{Put};
ghost use Rattle.format.specs.Block.{values_text};
ghost use Rattle.value_texts.specs.Measure.{measure_of};

use field_texts::values::{put_value, value_len};
use text::bytes::put_byte;
use value_rules::tens;

// A value is below this.
const LIMIT: u64 = 10_000_000_000_000;

// The bytes of a day's values, if each value is fit, where values have at most d decimals. More than six are as six: a value has no smaller part.
pub fn measure_values(values: &[u64], d: usize) -> Option<usize>
    requires { length values.now ≤ 288 }
    ensures { result ≡ measure_of d values.now }
{
    let part = tens(d);
    let mut bytes: usize = 0;
    for v in values {
        if LIMIT <= *v || *v % part != 0 {
            return None;
        }
        bytes += value_len(*v) + 1;
    }
    Some(bytes)
}

pub fn put_values(room: &mut [u8], at: usize, values: &[u64]) -> usize
    requires { at + length (values_text values.now) ≤ length room.old }
    ensures { Put room.old at (values_text values.now) result room.new }
{
    let mut p = at;
    for v in values {
        let e = put_value(room, p, *v);
        p = put_byte(room, e, b',');
    }
    p
}
