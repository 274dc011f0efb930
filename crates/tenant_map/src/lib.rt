// A tenant map in lent memory: made, added to, gone back to, and asked for a date. docs/MAP.md has its bytes.
#![tactic(auto)]

ghost use Rattle.std.specs.Prelude.{◌≡◌, ◌&&◌, ◌≤◌, ◌<◌, length, leb};
ghost use Rattle.std.proofs.lemmas.List.Edits.{sets};
ghost use Rattle.entries.specs.Left.{left};
ghost use Rattle.tenants.specs.Outputs.{keys_of, shares_of};
ghost use Rattle.tenants.specs.Versions.{version_at};
ghost use Rattle.tenants.specs.Calls.{versioned_as, mapped, make_of, add_of, back_of, on_of};

use appending::{append_copy, append_given};
use format::Refusal;
use little::put_number;
use output_bytes::{fill_keys, fill_shares};
use outputs::are_fit;
use versions::{BYTES, count, entries_at, is_map, version_on};

// Places for the keys and shares of 128 outputs.
const KEY_BYTES: usize = 1536;

const SHARES: usize = 128;

// Makes a map without versions, and answers 0. 15 for fewer than 57,476 bytes. The count is written, and no other byte.
pub fn make_map(memory: &mut [u8]) -> Result<usize, Refusal>
    ensures { left (versioned_as result) memory.new ≡ make_of memory.old }
{
    if memory.len() < BYTES {
        return Err(Refusal::bare(15));
    }
    put_number(memory, 0, 4, 0);
    Ok(0)
}

// So many key bytes and shares are those of 128 outputs, or more.
fn are_enough(keys: usize, shares: usize) -> bool
    ensures { result ≡ leb 1536 keys && leb 128 shares }
{
    KEY_BYTES <= keys && SHARES <= shares
}

// Adds a version of 128 entries that holds from a date on, and answers its number. 21 if the memory is no map; 15 for fewer than 1,536 key bytes or 128 shares; 25
// for an entry that a map may not have; 24 for a first date that is none or earlier than that of the last version; 23 if there are 32 versions.
pub fn add_version(
    memory: &mut [u8],
    first: u32,
    keys: &[u8],
    shares: &[u16],
) -> Result<usize, Refusal>
    ensures { left (versioned_as result) memory.new ≡ add_of memory.old first keys.now shares.now }
{
    if !is_map(memory) {
        return Err(Refusal::bare(21));
    }
    if !are_enough(keys.len(), shares.len()) {
        return Err(Refusal::bare(15));
    }
    if !are_fit(keys, shares) {
        return Err(Refusal::bare(25));
    }
    append_given(memory, first, keys, shares)
}

// Adds a version with the entries of an earlier one, and answers its number. 21 if the memory is no map, 14 if it has no version of that number, then 24 and 23 as
// adding has them.
pub fn back_to(memory: &mut [u8], version: usize, first: u32) -> Result<usize, Refusal>
    ensures { left (versioned_as result) memory.new ≡ back_of memory.old version first }
{
    if !is_map(memory) {
        return Err(Refusal::bare(21));
    }
    if version == 0 {
        return Err(Refusal::bare(14));
    }
    let n = count(memory);
    if (n as usize) < version {
        return Err(Refusal::bare(14));
    }
    append_copy(memory, (version - 1) as u32, first)
}

// The entries of the version behind i others.
fn fill(memory: &[u8], i: u32, keys: &mut [u8], shares: &mut [u16])
    requires { (57476 ≤ length memory.now) × (i < 32) × (1536 ≤ length keys.old) × (128 ≤ length shares.old) }
    ensures keys { keys.new ≡ sets keys.old 0 (keys_of (version_at memory.now i).outputs) }
    ensures shares { shares.new ≡ sets shares.old 0 (shares_of (version_at memory.now i).outputs) }
{
    let entries = entries_at(memory, i);
    fill_keys(entries, keys);
    fill_shares(entries, shares);
}

// The map on a date: answers the highest version whose first date is not later, and fills 1,536 key bytes and 128 shares. 21 if the memory is no map, 14 if the date
// is none or has no version, 15 for shorter lists.
pub fn map_on(
    memory: &[u8],
    date: u32,
    keys: &mut [u8],
    shares: &mut [u16],
) -> Result<usize, Refusal>
    ensures { mapped (versioned_as result) keys.new shares.new ≡ on_of memory.now date keys.old shares.old }
{
    if !is_map(memory) {
        return Err(Refusal::bare(21));
    }
    let v = version_on(memory, date);
    if v == 0 {
        return Err(Refusal::bare(14));
    }
    if !are_enough(keys.len(), shares.len()) {
        return Err(Refusal::bare(15));
    }
    fill(memory, v - 1, keys, shares);
    Ok(v as usize)
}
