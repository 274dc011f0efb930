// Whether what was lent is as it was lent: every place from one on holds the mark that it was filled with.
ghost use Rattle.std.specs.Prelude.{◌≡◌};
ghost use Rattle.page.specs.Filled.{Filled};
ghost use Rattle.calls.specs.Kept.{kept, ending};

use page::texts::put;

pub fn wide(list: &[u64], from: usize, mark: u64) -> bool
    ensures { result ≡ kept mark from list.now }
{
    list.iter().skip(from).all(|x| *x == mark)
}

pub fn sizes(list: &[usize], from: usize, mark: usize) -> bool
    ensures { result ≡ kept mark from list.now }
{
    list.iter().skip(from).all(|x| *x == mark)
}

pub fn halves(list: &[u16], from: usize, mark: u16) -> bool
    ensures { result ≡ kept mark from list.now }
{
    list.iter().skip(from).all(|x| *x == mark)
}

pub fn bytes(list: &[u8], from: usize, mark: u8) -> bool
    ensures { result ≡ kept mark from list.now }
{
    list.iter().skip(from).all(|x| *x == mark)
}

// The line's end, behind a word where something that was lent has changed.
#[tactic(auto, unfolding(crate::specs::Kept::ending))]
pub fn end_line(page: &mut [u8], at: usize, kept: bool) -> usize
    ensures { Filled page.old at (ending kept) result page.new }
{
    if kept {
        put(page, at, b"\n")
    } else {
        put(page, at, b" changed\n")
    }
}
