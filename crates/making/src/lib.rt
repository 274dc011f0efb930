// A store made in lent memory.
#![tactic(auto)]

ghost use Rattle.std.specs.Prelude.{◌≡◌, true, min, ◌≤◌};
ghost use Rattle.format.specs.File.{most};
ghost use Rattle.store.specs.Store.{slotted};
ghost use Rattle.entries.specs.Left.{left};
ghost use Rattle.store.specs.Calls.{made_as, make_of};

use format::Refusal;
use frames::is_slotted;
use slots::write_header;
use store::Header;

// The most that a room has.
const MOST: usize = 1048576;

fn room_of(rest: usize) -> usize
    ensures { result ≡ min rest most }
{
    rest.min(MOST)
}

// A slot count that a store may have.
fn make_slots(memory: &mut [u8], slots: u32) -> Result<usize, Refusal>
    requires { (slotted slots ≡ true) × (slots ≤ 64) }
    ensures { left (made_as result) memory.new ≡ make_of memory.old slots }
{
    let room = 32 + 26 * slots;
    let before = room as usize;
    let n = memory.len();
    if n < before {
        return Err(Refusal::bare(15));
    }
    let size = room_of(n - before);
    write_header(
        memory,
        Header {
            slots,
            days: 0,
            map: 0,
            list: 32,
            room,
            size: size as u32,
            used: 0,
        },
    );
    Ok(size)
}

// Makes an empty store of so many slots in the memory, and answers its room's length: what is left behind header and slots, up to 1,048,576. 21 for a slot count
// that is not 1 to 64, 15 for fewer bytes than header and slots have. The header is written, and no other byte.
pub fn make_store(memory: &mut [u8], slots: u32) -> Result<usize, Refusal>
    ensures { left (made_as result) memory.new ≡ make_of memory.old slots }
{
    if is_slotted(slots) {
        return make_slots(memory, slots);
    }
    Err(Refusal::bare(21))
}
