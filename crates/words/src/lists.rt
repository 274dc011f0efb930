// Lists of texts with a semicolon between each two.
ghost use Rattle.std.specs.Prelude.{◌≡◌, ◌≤◌, length, drop};
ghost use Rattle.words.specs.Lists.{first_in, behind, numbered};

use leaf::bytes::first_at;
use page::texts::part;

// The first text of a list.
fn first(list: &[u8]) -> &[u8]
    ensures { result.now ≡ first_in list.now }
{
    part(list, 0, first_at(list, b';'))
}

// Where the list goes on behind its first text, which starts at a place.
fn next(list: &[u8], at: usize) -> usize
    requires { at ≤ length list.now }
    ensures is { drop result list.now ≡ behind (drop at list.now) }
    ensures within { result ≤ length list.now }
{
    let n = first_at(&list[at..], b';');
    if n < list.len() - at {
        at + n + 1
    } else {
        list.len()
    }
}

// The text of a number from 1, empty where the list has fewer.
pub fn text_at(list: &[u8], number: usize) -> &[u8]
    ensures { result.now ≡ numbered number list.now }
{
    let mut at: usize = 0;
    for _ in 1..number {
        at = next(list, at);
    }
    first(&list[at..])
}
