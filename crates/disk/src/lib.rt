// Files of the machine. No contract can say what a file holds, so these functions are proved safe, and have none.
#![tactic(auto)]

use machine::{Machine, WORD};
use std::io;

// Standard input is named by a dash.
fn is_dash(path: &[u8]) -> bool {
    path == b"-".as_slice()
}

// The file of a name: how many of its bytes stand at the start of the room.
pub fn load(rt: &impl Machine, path: &[u8], room: &mut [u8]) -> io::Result<usize> {
    if is_dash(path) {
        return rt.read_all(room);
    }
    rt.load(path, room)
}

// The error's words of the file.
fn cannot_read(rt: &impl Machine, path: &[u8], error: io::Error) {
    rt.warn(b"nem: ");
    rt.fail(path, error);
}

// The file that a word of the program names: how many of its bytes stand at the start of the room, all of them or as many as the room has. Where it can't be read,
// standard error says why.
pub fn load_word(rt: &impl Machine, i: usize, room: &mut [u8]) -> Option<usize> {
    let mut path = [0u8; WORD];
    let n = rt.arg(i, &mut path);
    match load(rt, &path[..n], room) {
        Ok(k) => Some(k),
        Err(e) => {
            cannot_read(rt, &path[..n], e);
            None
        }
    }
}
