// Answers for each file of data/ that standard input names, a line each: the check, and of an accepted file each day and each total. The lines are those
// that the program 'probe' gives for the same calls.
#![tactic(auto)]

use answer_lines::answers;
use answer_lines::days::day_line;
use checking::check::check;
use disk::load;
use leaf::bytes::first_at;
use machine::{Machine, PAGE};
use output::write;
use page::texts::{part, put};
use reading::read_day::read_day;
use reading::total::total;
use std::io;

// A place more than the longest file has, so that a longer one is seen to be one.
const ROOM: usize = 1048577;

const MOST: usize = 288;

fn say(rt: &impl Machine, page: &mut [u8], at: usize) {
    let p = put(page, at, b"\n");
    write(rt, page, p);
}

// ---- days

fn day_in(
    rt: &impl Machine,
    page: &mut [u8],
    file: &[u8],
    k: usize,
    values: &mut [u64],
    flags: &mut [u8],
    methods: &mut [u8],
    reasons: &mut [u16],
    starts: &mut [usize],
    lengths: &mut [usize],
) {
    let x = read_day(file, k, values, flags, methods, reasons, starts, lengths);
    let p = day_line(page, 0, x, values, flags, methods, reasons, starts, lengths);
    say(rt, page, p);
}

fn day(rt: &impl Machine, page: &mut [u8], file: &[u8], k: usize) {
    let mut values = [0u64; MOST];
    let mut flags = [0u8; MOST];
    let mut methods = [0u8; MOST];
    let mut reasons = [0u16; MOST];
    let mut starts = [0usize; MOST];
    let mut lengths = [0usize; MOST];
    day_in(
        rt,
        page,
        file,
        k,
        &mut values,
        &mut flags,
        &mut methods,
        &mut reasons,
        &mut starts,
        &mut lengths,
    );
}

fn days(rt: &impl Machine, page: &mut [u8], file: &[u8], n: usize) {
    for k in 0..n {
        day(rt, page, file, k);
    }
}

// ---- totals

fn totals(rt: &impl Machine, page: &mut [u8], file: &[u8], n: usize) {
    for k in 0..n {
        let p = answers::totalled(page, 0, total(file, k));
        say(rt, page, p);
    }
}

// ---- files

fn answer(rt: &impl Machine, page: &mut [u8], file: &[u8]) {
    let x = check(file);
    let p = answers::checked(page, 0, x);
    say(rt, page, p);
    if let Ok(c) = x {
        days(rt, page, file, c.days);
        totals(rt, page, file, c.channels);
    }
}

fn no_file(rt: &impl Machine, page: &mut [u8], name: &[u8]) {
    let p = put(page, 0, name);
    let q = put(page, p, b" cannot be read");
    say(rt, page, q);
}

fn named(rt: &impl Machine, page: &mut [u8], room: &mut [u8], name: &[u8]) {
    let Ok(n) = load(rt, name, room) else {
        no_file(rt, page, name);
        return;
    };
    answer(rt, page, part(room, 0, n));
}

// Each line of the list names a file.
fn listed(rt: &impl Machine, page: &mut [u8], room: &mut [u8], list: &[u8]) {
    let mut at: usize = 0;
    while at < list.len() {
        let end = at + first_at(&list[at..], b'\n');
        named(rt, page, room, part(list, at, end));
        at = end + 1;
    }
}

fn main(rt: HostRuntime) -> io::Result<()> {
    let mut page = [0u8; PAGE];
    let mut list = [0u8; PAGE];
    let mut room = vec![in rt.alloc(); 0u8; ROOM]?;
    let n = rt.read_all(&mut list)?;
    listed(&rt, &mut page, &mut room, part(&list, 0, n));
    Ok(())
}
