// Each public entry as the probe calls it: its answer is put on a page as a line, and the line says so where something that was lent has changed and
// should not have.
#![tactic(auto)]

pub mod blocks;
pub mod files;
pub mod kept;

ghost use Rattle.std.specs.Prelude.{◌≤◌, length};

// The most places of a list.
pub const PLACES: usize = 300;

// Of all the memory, the bytes that are lent. They are no more than the copy of them has room for, as it always has for all.
pub fn lent(memory: &mut [u8], size: usize, room: usize) -> &mut [u8]
    ensures { length result.now ≤ room }
{
    if memory.len() < size || room < size {
        &mut memory[..0]
    } else {
        &mut memory[..size]
    }
}
