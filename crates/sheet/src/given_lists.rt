// Numbers in lists of their types.
ghost use Rattle.std.specs.Prelude.{◌≡◌, ℕ, ◌%◌};
ghost use Rattle.sheet.specs.Sheets.{all_below, Holds};

use calls::PLACES;
use page::items::u64_at;
use std::array;

// Whether each number is below another.
pub fn below(list: &[u64], most: u64) -> bool
    ensures { result ≡ all_below most list.now }
{
    list.iter().all(|x| *x < most)
}

pub fn bytes_of(list: &[u64]) -> [u8; PLACES]
    ensures { Holds (λ (z : ℕ). z % 256) list.now result 300 }
{
    array::from_fn(|i| (u64_at(list, i) % 256) as u8)
}

pub fn halves_of(list: &[u64]) -> [u16; PLACES]
    ensures { Holds (λ (z : ℕ). z % 65536) list.now result 300 }
{
    array::from_fn(|i| (u64_at(list, i) % 65536) as u16)
}

pub fn sizes_of(list: &[u64]) -> [usize; PLACES]
    ensures { Holds (λ (z : ℕ). z) list.now result 300 }
{
    array::from_fn(|i| u64_at(list, i) as usize)
}
