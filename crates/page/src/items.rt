// Elements of lists that may be shorter than asked.
ghost use Rattle.std.specs.Prelude.{◌≡◌, get_or};

// The element at a place, 0 past the end.
pub fn u64_at(list: &[u64], i: usize) -> u64
    ensures { result ≡ get_or list.now i 0 }
{
    list.get(i).copied().unwrap_or(0)
}

pub fn usize_at(list: &[usize], i: usize) -> usize
    ensures { result ≡ get_or list.now i 0 }
{
    list.get(i).copied().unwrap_or(0)
}

pub fn u16_at(list: &[u16], i: usize) -> u16
    ensures { result ≡ get_or list.now i 0 }
{
    list.get(i).copied().unwrap_or(0)
}

pub fn u8_at(list: &[u8], i: usize) -> u8
    ensures { result ≡ get_or list.now i 0 }
{
    list.get(i).copied().unwrap_or(0)
}
