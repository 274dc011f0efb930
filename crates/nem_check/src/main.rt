// nem check FILE..: whether each file is accepted. Its words are its own name, the command's and those of the files.
#![tactic(auto)]

use checking::check::check;
use disk::load_word;
use machine::{Machine, PAGE, WORD};
use outward::{DONE, FAILED, finish, graver, write};
use page::texts::{part, put};
use std::alloc::{AllocError, Global};
use verdict::said;

// A place more than the longest file has, so that a longer one is seen to be one.
const ROOM: usize = 1048577;

// The first of the files' names among the words.
const FIRST: usize = 2;

// The file's name before what is said of it, where there are several.
fn name(rt: &impl Machine, page: &mut [u8], i: usize, several: bool) -> usize {
    if !several {
        return 0;
    }
    let mut word = [0u8; WORD];
    let n = rt.arg(i, &mut word);
    let p = put(page, 0, &word[..n]);
    put(page, p, b": ")
}

fn check_file(rt: &impl Machine, page: &mut [u8], room: &mut [u8], i: usize, several: bool) -> u8 {
    let Some(k) = load_word(rt, i, room) else {
        return FAILED;
    };
    let file = part(room, 0, k);
    let p = name(rt, page, i, several);
    let v = said(page, p, file, check(file), several);
    graver(write(rt, page, v.next), v.status)
}

fn check_files(rt: &impl Machine, page: &mut [u8], room: &mut [u8]) -> u8 {
    let words = rt.arg_count();
    let mut worst = DONE;
    for i in FIRST..words {
        worst = graver(worst, check_file(rt, page, room, i, FIRST + 1 < words));
    }
    worst
}

fn run(rt: &impl Machine, alloc: Global) -> Result<u8, AllocError> {
    let mut page = [0u8; PAGE];
    let mut room = vec![in alloc; 0u8; ROOM]?;
    Ok(check_files(rt, &mut page, &mut room))
}

fn main(rt: HostRuntime) {
    finish(&rt, run(&rt, rt.alloc()));
}
