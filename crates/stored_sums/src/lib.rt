// What the values of a stored day add up to.
#![tactic(auto)]

ghost use Rattle.std.specs.Prelude.{◌≡◌};
ghost use Rattle.ground.specs.Lists.{sum};
ghost use Rattle.format.specs.Answers.{totalled_as};
ghost use Rattle.format.specs.Day.{values_of};
ghost use Rattle.entries.specs.Keys.{key};
ghost use Rattle.store.specs.Calls.{day_rows};
ghost use Rattle.getting.specs.Gets.{Readable};
ghost use Rattle.stored_sums.specs.Sums.{stored_sum_of};

use entries::Entry;
use format::Refusal;
use lines::line_end;
use number_rules::intervals;
use opening::open_store;
use seeking::find_slot;
use slots::{place, read_entry};
use store::Header;
use sums::add_day;

// The day of an entry. The memory is cut at the block's end, as the block that was checked is what stands up to there.
fn sum_block(memory: &[u8], h: Header, e: Entry) -> u64
    requires { Readable memory.now h e }
    ensures { result ≡ sum (values_of (day_rows memory.now h e)) }
{
    let start = h.room as usize + e.start as usize;
    let end = start + e.size as usize;
    let top = line_end(&memory[..end], start);
    add_day(&memory[..end], start, top, intervals(e.minutes as u64))
}

// What the values of the day of a key add up to. 21 if the memory is no store, 14 if it has no day of that key.
pub fn stored_sum(memory: &[u8], nmi: &[u8], suffix: &[u8], date: u32) -> Result<u64, Refusal>
    ensures { totalled_as result ≡ stored_sum_of memory.now (key nmi.now suffix.now date) }
{
    let h = open_store(memory).ok_or(Refusal::bare(21))?;
    let i = find_slot(memory, h, nmi, suffix, date);
    if h.slots <= i {
        return Err(Refusal::bare(14));
    }
    let e = read_entry(memory, place(h, i));
    Ok(sum_block(memory, h, e))
}
