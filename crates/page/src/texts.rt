// Texts put on a page from a place on, as much of each as there is room for. Each function answers the place behind what it put.
ghost use Rattle.std.specs.Prelude.{◌≡◌};
ghost use Rattle.ground.specs.Lists.{part as Lists·part};
ghost use Rattle.ground.specs.Digits.{dec};
ghost use Rattle.format.specs.Block.{value_text};
ghost use Rattle.page.specs.Filled.{Filled};

use field_texts::values::put_value;
use text::bytes::put_bytes;
use text::digits::put_dec;

// The bytes from one place up to another, as far as there are any.
pub fn part(text: &[u8], from: usize, to: usize) -> &[u8]
    ensures { result.now ≡ Lists·part text.now from to }
{
    let end = to.min(text.len());
    &text[from.min(end)..end]
}

pub fn put(page: &mut [u8], at: usize, text: &[u8]) -> usize
    ensures { Filled page.old at text.now result page.new }
{
    if page.len() <= at {
        return at;
    }
    let room = page.len() - at;
    put_bytes(page, at, &text[..text.len().min(room)])
}

// A number without leading zeros.
pub fn number(page: &mut [u8], at: usize, n: u64) -> usize
    ensures { Filled page.old at (dec n) result page.new }
{
    let mut digits = [0u8; 20];
    let k = put_dec(&mut digits, 0, n);
    put(page, at, &digits[..k])
}

// Millionths as a decimal, 17461000 as 17.461.
pub fn value(page: &mut [u8], at: usize, v: u64) -> usize
    ensures { Filled page.old at (value_text v) result page.new }
{
    let mut digits = [0u8; 27];
    let k = put_value(&mut digits, 0, v);
    put(page, at, &digits[..k])
}
