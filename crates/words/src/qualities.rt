// What the flag of an interval's quality means.
ghost use Rattle.page.specs.Filled.{Filled};
ghost use Rattle.words.specs.Qualities.{quality_name};

use page::texts::put;

pub fn name(page: &mut [u8], at: usize, flag: u8) -> usize
    ensures { Filled page.old at (quality_name flag) result page.new }
{
    match flag {
        b'A' => put(page, at, b"actual"),
        b'E' => put(page, at, b"estimated"),
        b'F' => put(page, at, b"final substituted"),
        b'N' => put(page, at, b"null data"),
        b'S' => put(page, at, b"substituted"),
        _ => put(page, at, b""),
    }
}
