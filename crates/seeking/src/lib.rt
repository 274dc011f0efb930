// The slot of a key.
#![tactic(auto)]

ghost use Rattle.std.specs.Prelude.{◌≡◌, ◌&&◌};
ghost use Rattle.entries.specs.Keys.{key, capital_key, same_key};
ghost use Rattle.store.specs.Used.{used};
ghost use Rattle.store.specs.Store.{slot_key};
ghost use Rattle.store.specs.Calls.{seek};

use keys::is_key;
use little::{piece_at, u32_at};
use slots::place;
use store::Header;
use used_map::is_used;

// Slot i is used and has the key.
#[tactic(auto, unfolding(entries::specs::Entries::key_at))]
fn has_key(memory: &[u8], h: Header, i: u32, nmi: &[u8], suffix: &[u8], date: u32) -> bool
    ensures { result ≡ (used h.map i && same_key (capital_key (key nmi.now suffix.now date)) (slot_key memory.now h i)) }
{
    let at = place(h, i);
    is_used(h.map, i)
        && is_key(
            nmi,
            suffix,
            date,
            piece_at(memory, at, 10),
            piece_at(memory, at + 10, 2),
            u32_at(memory, at + 12),
        )
}

// The used slot that has the key, or the number of slots where none has.
pub fn find_slot(memory: &[u8], h: Header, nmi: &[u8], suffix: &[u8], date: u32) -> u32
    ensures { result ≡ seek memory.now h (key nmi.now suffix.now date) }
{
    for i in 0..h.slots {
        if has_key(memory, h, i, nmi, suffix, date) {
            return i;
        }
    }
    h.slots
}
