// The machine that a program runs on: its words, standard input, output and error, and files. Nothing here knows of the format. No contract can say what a machine
// gives or takes, so these functions say no more than how much of a buffer was filled.
#![tactic(auto)]

ghost use Rattle.std.specs.Prelude.{◌≤◌, length, IfOk};

use std::env::Env;
use std::fs::{File, OpenOptions};
use std::io::{ErrorKind, Read, Write};
use std::{io, str};

// Linux's numbers of two errors: a descriptor that is not open, and text that is none.
const NOT_OPEN: i32 = 9;

const NO_TEXT: i32 = 84;

// The room for a word: a file's name of any length fits.
pub const WORD: usize = 4096;

// The room for a page of text.
pub const PAGE: usize = 65536;

// What the programs need. It is passed down from main, and a test may stand in for it.
pub trait Machine {
    // How many words the program was started with, its own name among them.
    fn arg_count(&self) -> usize;

    // Puts word i at the start of the buffer and answers its length, 0 where there is none or where it is longer than the buffer.
    fn arg(&self, i: usize, buf: &mut [u8]) -> usize
        ensures within { result ≤ length buf.new };

    // One read of standard input; nothing at its end.
    fn read(&self, buf: &mut [u8]) -> io::Result<usize>
        ensures within { IfOk result (λ n. n ≤ length buf.new) };

    // The bytes of standard input at the start of the room, all of them or as many as the room has.
    fn read_all(&self, room: &mut [u8]) -> io::Result<usize>;

    // Those of a file.
    fn load(&self, path: &[u8], room: &mut [u8]) -> io::Result<usize>;

    // All the bytes to standard output.
    fn write(&self, bytes: &[u8]) -> io::Result<()>;

    // The bytes to standard error. Where it takes none, nobody can be told.
    fn warn(&self, bytes: &[u8]);

    // All the bytes to an open descriptor, which lies at a path: behind what it has, if it is a file's.
    fn write_behind(&self, path: &str, bytes: &[u8]) -> io::Result<()>;

    // A line to standard error: what failed, a colon and the error's words.
    fn fail(&self, what: &[u8], error: io::Error);
}

impl Machine for HostRuntime {
    fn arg_count(&self) -> usize {
        for i in 0..usize::MAX {
            if is_missing(self, i) {
                return i;
            }
        }
        usize::MAX
    }

    fn arg(&self, i: usize, buf: &mut [u8]) -> usize {
        Env::arg(self, i, buf).unwrap_or(0)
    }

    fn read(&self, buf: &mut [u8]) -> io::Result<usize> {
        self.stdin().read(buf)
    }

    fn read_all(&self, room: &mut [u8]) -> io::Result<usize> {
        fill(&mut self.stdin(), room)
    }

    fn load(&self, path: &[u8], room: &mut [u8]) -> io::Result<usize> {
        let Ok(name) = str::from_utf8(path) else {
            return Err(io::Error::from_raw_os_error(NO_TEXT));
        };
        let mut file = File::open(self, name)?;
        fill(&mut file, room)
    }

    fn write(&self, bytes: &[u8]) -> io::Result<()> {
        io::Print::write_all(self, bytes)
    }

    fn warn(&self, bytes: &[u8]) {
        let _ = io::Print::write_all(&self.stderr(), bytes);
    }

    fn write_behind(&self, path: &str, bytes: &[u8]) -> io::Result<()> {
        match OpenOptions::new().append(true).open(self, path) {
            Ok(mut file) => file.write_all(bytes),
            Err(e) if e.kind() == ErrorKind::NotFound => {
                Err(io::Error::from_raw_os_error(NOT_OPEN))
            }
            Err(e) => Err(e),
        }
    }

    fn fail(&self, what: &[u8], error: io::Error) {
        self.warn(what);
        self.warn(b": ");
        match format!(in self.alloc(); "{error}") {
            Ok(text) => self.warn(words(text.as_str()).as_bytes()),
            Err(_) => self.warn(b"memory allocation failed"),
        }
        self.warn(b"\n");
    }
}

fn is_missing(env: &impl Env, i: usize) -> bool {
    matches!(env.arg(i, &mut []), Err(std::env::FillError::NotPresent))
}

// What a reader gives, at the start of the room: all of it or as much as the room has.
fn fill(from: &mut impl Read, room: &mut [u8]) -> io::Result<usize> {
    let mut n = 0;
    while n < room.len() {
        let got = from.read(&mut room[n..])?;
        if got == 0 {
            break;
        }
        n += got;
    }
    Ok(n)
}

// An error's words without the system's number, which std puts behind them.
fn words(text: &str) -> &str {
    match text.split_once(" (os error ") {
        Some((words, _)) => words,
        None => text,
    }
}
