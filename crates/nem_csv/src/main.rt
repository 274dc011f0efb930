// nem csv and nem daily: a file's values as tables for other tools. The words are its own name, the command's and the file's.
#![tactic(auto)]

mod days;
mod intervals;
mod reads;
mod sheet;

use checking::tour::check_and_note;
use disk::load_word;
use explain::refused::explained;
use leaf::bytes::same_bytes;
use machine::{Machine, PAGE, WORD};
use outward::{FAILED, REFUSED, finish, warn};
use page::texts::part;
use std::alloc::{AllocError, Global};

// A place more than the longest file has, so that a longer one is seen to be one.
const ROOM: usize = 1048577;

fn table(rt: &impl Machine, page: &mut [u8], file: &[u8], command: &[u8]) -> u8 {
    let noted = check_and_note(file, 0, 0);
    let answer = noted.answer;
    let day = noted.day;
    let channel = noted.channel;
    match answer {
        Ok(c) => {
            if same_bytes(command, b"daily") {
                return days::show(rt, page, file, c.days, day);
            }
            if c.version == 13 {
                return reads::show(rt, page, file, c.channels, channel);
            }
            intervals::show(rt, page, file, c.days, day)
        }
        Err(x) => {
            let p = explained(page, 0, file, x);
            warn(rt, page, p);
            REFUSED
        }
    }
}

fn show(rt: &impl Machine, page: &mut [u8], room: &mut [u8]) -> u8 {
    let mut command = [0u8; WORD];
    let n = rt.arg(1, &mut command);
    let Some(k) = load_word(rt, 2, room) else {
        return FAILED;
    };
    table(rt, page, part(room, 0, k), &command[..n])
}

fn run(rt: &impl Machine, alloc: Global) -> Result<u8, AllocError> {
    let mut page = [0u8; PAGE];
    let mut room = vec![in alloc; 0u8; ROOM]?;
    Ok(show(rt, &mut page, &mut room))
}

fn main(rt: HostRuntime) {
    finish(&rt, run(&rt, rt.alloc()));
}
