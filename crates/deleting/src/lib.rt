// The day of a key deleted from a store.
#![tactic(auto)]

ghost use Rattle.std.specs.Prelude.{◌≡◌};
ghost use Rattle.entries.specs.Keys.{key};
ghost use Rattle.entries.specs.Left.{left};
ghost use Rattle.store.specs.Calls.{kept_as, delete_from, delete_of};
ghost use Rattle.settling.specs.Settling.{Settles};

use format::Refusal;
use opening::open_store;
use seeking::find_slot;
use settling::settle;
use slots::write_header;
use store::Header;
use used_map::{count, set_free};

// The blocks of the slots that the map has in use move down, and the header says so.
fn keep_only(memory: &mut [u8], h: Header, map: u64) -> Result<usize, Refusal>
    requires { Settles memory.old h map }
    ensures { left (kept_as result) memory.new ≡ delete_from memory.old h map }
{
    let end = settle(memory, h, map);
    let days = count(map);
    write_header(
        memory,
        Header {
            slots: h.slots,
            days,
            map,
            list: h.list,
            room: h.room,
            size: h.size,
            used: end as u32,
        },
    );
    Ok(days as usize)
}

// Deletes the day of a key, and answers the days held then. 21 if the memory is no store, 14 if it has no day of that key. The slot keeps its bytes; the blocks
// that stay move down over the hole.
pub fn delete_day(memory: &mut [u8], nmi: &[u8], suffix: &[u8], date: u32) -> Result<usize, Refusal>
    ensures { left (kept_as result) memory.new ≡ delete_of memory.old (key nmi.now suffix.now date) }
{
    let h = open_store(memory).ok_or(Refusal::bare(21))?;
    let i = find_slot(memory, h, nmi, suffix, date);
    if h.slots <= i {
        return Err(Refusal::bare(14));
    }
    keep_only(memory, h, set_free(h.map, i))
}
