// What leaves a program for people: a page to standard output, a line to standard error, the bytes of a file, and its status. What is put together on a page is
// written out whole. No contract can say what is written, so these functions are proved safe, and have none.
#![tactic(auto)]

use machine::Machine;
use page::texts::{part, put};
use std::alloc::AllocError;
use std::io;
use std::io::ErrorKind;

// Where the status is told: descriptor 3, which `nem` listens to, since a program can't set its own.
const STATUS: &str = "/dev/fd/3";

// Where the bytes of a file go that was made or changed: descriptor 5, from which `nem` puts them in the file's place once they are whole.
const KEPT: &str = "/dev/fd/5";

// What was asked was done, and every file accepted.
pub const DONE: u8 = 0;

// A file or a call was refused.
pub const REFUSED: u8 = 1;

// Wrong use, or what can't be read or written.
pub const FAILED: u8 = 2;

// The graver of two.
pub fn graver(a: u8, b: u8) -> u8 {
    a.max(b)
}

// Tells the status, as its digit, if anything listens.
pub fn tell(rt: &impl Machine, status: u8) {
    let _ = rt.write_behind(STATUS, &[b'0' + status % 10]);
}

// Tells what a program came to. Where there was no memory for its work, standard error says so.
pub fn finish(rt: &impl Machine, came: Result<u8, AllocError>) {
    match came {
        Ok(status) => tell(rt, status),
        Err(e) => {
            rt.fail(b"nem", io::Error::from(e));
            tell(rt, FAILED);
        }
    }
}

// What stands on the page before a place, to standard output. Where it can't be written, standard error says why, unless nobody reads on.
pub fn write(rt: &impl Machine, page: &[u8], at: usize) -> u8 {
    match rt.write(part(page, 0, at)) {
        Ok(()) => DONE,
        Err(e) => {
            if e.kind() != ErrorKind::BrokenPipe {
                rt.fail(b"nem: standard output", e);
            }
            FAILED
        }
    }
}

// The line that ends at a place of the page, to standard output.
pub fn write_line(rt: &impl Machine, page: &mut [u8], at: usize) -> u8 {
    let p = put(page, at, b"\n");
    write(rt, page, p)
}

// What stands before a place, to standard error, for what is not what was asked for: a refusal, say, where a table was.
pub fn warn(rt: &impl Machine, page: &[u8], at: usize) {
    rt.warn(part(page, 0, at));
}

// The line that ends at a place of the page, to standard error.
pub fn complain(rt: &impl Machine, page: &mut [u8], at: usize) {
    let p = put(page, at, b"\n");
    warn(rt, page, p);
}

// The bytes of a file that was made or changed.
pub fn keep(rt: &impl Machine, bytes: &[u8]) -> u8 {
    match rt.write_behind(KEPT, bytes) {
        Ok(()) => DONE,
        Err(e) => {
            rt.fail(b"nem: beside the file", e);
            FAILED
        }
    }
}
