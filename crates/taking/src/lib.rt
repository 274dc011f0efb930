// Whether a put may take the place of what its key has, and the slot that it takes.
#![tactic(auto)]

ghost use Rattle.std.specs.Prelude.{◌≡◌, cond, ◌&&◌, leb, ltb};
ghost use Rattle.store.specs.Used.{free_from};
ghost use Rattle.store.specs.Calls.{update_of};

use kept_days::update_of;
use slots::{place, read_entry};
use store::Header;
use used_map::lowest_free;

// The key's slot i, if it has one, holds a day whose update time is equal or later.
pub fn is_kept_since(memory: &[u8], h: Header, i: u32, update: u64) -> bool
    ensures { result ≡ (ltb i h.slots && leb update (update_of memory.now h i)) }
{
    i < h.slots && update <= update_of(memory, h, read_entry(memory, place(h, i)))
}

// The key's slot i, or the lowest free one.
pub fn slot_for(h: Header, i: u32) -> u32
    ensures { result ≡ cond (ltb i h.slots) i (free_from h.map 0 h.slots) }
{
    if i < h.slots {
        i
    } else {
        lowest_free(h.map, h.slots)
    }
}
