// From where on memory has to be as it was before a call of a store.
#![tactic(auto)]

ghost use Rattle.std.specs.Prelude.{◌≡◌};
ghost use Rattle.store.specs.Calls.{made_as, kept_as};
ghost use Rattle.kept_bytes.specs.Kept.{kept_from, used_end};

use format::Refusal;
use slots::read_header;

// Behind a making.
pub fn made_from(x: Result<usize, Refusal>) -> usize
    ensures { result ≡ kept_from (made_as x) 32 }
{
    x.map_or(0, |_| 32)
}

// Where the used bytes end.
fn used_end(memory: &[u8]) -> usize
    ensures { result ≡ used_end memory.now }
{
    let h = read_header(memory);
    h.room as usize + h.used as usize
}

// Behind a put or a delete.
pub fn changed_from(x: Result<usize, Refusal>, memory: &[u8]) -> usize
    ensures { result ≡ kept_from (kept_as x) (used_end memory.now) }
{
    match x {
        Ok(_) => used_end(memory),
        Err(_) => 0,
    }
}
