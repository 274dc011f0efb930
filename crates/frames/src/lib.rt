// The conditions of a store that its header alone meets or not: the slot count, the days held, the map, and where list and room lie.
#![tactic(auto)]

ghost use Rattle.std.specs.Prelude.{◌≡◌};
ghost use Rattle.store.specs.Store.{slotted, in_order};
ghost use Rattle.frames.specs.Frames.{framed};

use store::Header;
use used_map::{count, none_past};

// A slot count that a store may have.
#[tactic(auto, unfolding(store::specs::Store::slotted))]
pub fn is_slotted(slots: u32) -> bool
    ensures { result ≡ slotted slots }
{
    (1..=64).contains(&slots)
}

// List and room lie in that order behind the header, inside n bytes.
#[tactic(auto, unfolding(store::specs::Store::in_order))]
fn is_in_order(h: Header, n: usize) -> bool
    ensures { result ≡ in_order h n }
{
    let end = h.list as usize + 26 * h.slots as usize;
    let room = h.room as usize;
    32 <= h.list && end <= room && room + h.size as usize <= n
}

#[tactic(auto, unfolding(crate::specs::Frames::framed, store::specs::Store::counted, store::specs::Store::used_fit))]
pub fn is_framed(h: Header, n: usize) -> bool
    ensures { result ≡ framed h n }
{
    is_slotted(h.slots)
        && h.days == count(h.map)
        && none_past(h.map, h.slots)
        && is_in_order(h, n)
        && h.used <= h.size
}
