// Numbers, each behind a byte that parts it from the one before.
ghost use Rattle.std.specs.Prelude.{◌∷◌};
ghost use Rattle.ground.specs.Digits.{dec};
ghost use Rattle.page.specs.Filled.{Filled};
ghost use Rattle.answer_lines.specs.Lines.{numbers_text};

use page::texts::{number, put};

// A byte, and behind it a number.
pub fn number_behind(page: &mut [u8], at: usize, sign: u8, n: u64) -> usize
    ensures { Filled page.old at (sign ∷ dec n) result page.new }
{
    let p = put(page, at, &[sign]);
    number(page, p, n)
}

// Numbers, each behind the byte.
pub fn numbers_behind(page: &mut [u8], at: usize, sign: u8, list: &[u64]) -> usize
    ensures { Filled page.old at (numbers_text sign list.now) result page.new }
{
    let mut p = at;
    for n in list {
        p = number_behind(page, p, sign, *n);
    }
    p
}
