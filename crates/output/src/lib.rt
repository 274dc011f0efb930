// Standard output, on which the probe answers: what is put together on a page is written out in pieces. No contract can say what is written, so these functions are
// proved safe, and have none.
#![tactic(auto)]

use machine::Machine;
use page::texts::part;

// What is put on the page is written out where so much of it stands there: the longest piece that is put there at once, the answer and 400 days of a month, is shorter
// than the rest.
const FULL: usize = 32768;

// What stands on the page before a place. Where nobody reads it, nothing is left to do.
pub fn write(rt: &impl Machine, page: &[u8], at: usize) {
    let _ = rt.write(part(page, 0, at));
}

// The place to go on from: the page's start, where the page was written out.
pub fn make_room(rt: &impl Machine, page: &[u8], at: usize) -> usize {
    if at < FULL {
        return at;
    }
    write(rt, page, at);
    0
}
