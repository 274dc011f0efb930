// The words behind the map's file.
use date_rules::calendar::is_date;
use leaf::digits::digits;
use machine::{Machine, WORD};
use named::date_of;
use outward::complain;
use page::texts::put;
use phrase::counts::quoted;
use wanted::no_date;

// The first of them.
pub const FIRST: usize = 4;

// More than the number of any date.
const EIGHT_DIGITS: u64 = 100000000;

// A date, or none where the word is no date, as is said then.
pub fn date(rt: &impl Machine, page: &mut [u8], i: usize) -> Option<u32> {
    let mut word = [0u8; WORD];
    let n = rt.arg(i, &mut word);
    if let Some(day) = date_of(&word[..n]) {
        if is_date(day) {
            return Some((day % EIGHT_DIGITS) as u32);
        }
    }
    no_date(rt, page, &word[..n]);
    None
}

fn no_version(rt: &impl Machine, page: &mut [u8], word: &[u8]) {
    let p = put(page, 0, b"nem: ");
    let q = quoted(page, p, word);
    let r = put(
        page,
        q,
        b" is no version number; nem map history lists the versions",
    );
    complain(rt, page, r);
}

// The number of a version, where the word is one.
pub fn version(rt: &impl Machine, page: &mut [u8], i: usize) -> Option<u64> {
    let mut word = [0u8; WORD];
    let n = rt.arg(i, &mut word);
    let x = digits(&word[..n], 1, 14);
    if let None = x {
        no_version(rt, page, &word[..n]);
    }
    x
}
