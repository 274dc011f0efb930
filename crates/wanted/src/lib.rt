// The day that a program's words ask for, behind the file: by its number, or by NMI, suffix and date. Its number is answered, or the status of a call that asks for
// none. What decides has contracts in `named` and `reading`; no
// contract can say what the words are or what is written, so these functions are proved safe, and have none.
#![tactic(auto)]

use checking::tour::check_and_note;
use explain::refused::explained;
use leaf::digits::digits;
use machine::{Machine, WORD};
use named::{date_of, day_named};
use outward::{FAILED, REFUSED, complain, warn};
use page::texts::{number, put};
use phrase::counts::quoted;
use phrase::times::date;

// The first of the words behind the file.
const FIRST: usize = 3;

// How many words there are where NMI, suffix and date are given, the program's name, the command and the file among them.
const BY_KEY: usize = 6;

// ---- by its number

fn no_number(rt: &impl Machine, page: &mut [u8], word: &[u8]) {
    let p = put(page, 0, b"nem: ");
    let q = quoted(page, p, word);
    let r = put(page, q, b" is no day number; nem days lists the days");
    complain(rt, page, r);
}

// The day whose number a word is.
pub fn by_number(rt: &impl Machine, page: &mut [u8], i: usize) -> Result<usize, u8> {
    let mut word = [0u8; WORD];
    let n = rt.arg(i, &mut word);
    match digits(&word[..n], 1, 14) {
        Some(k) => Ok(k as usize),
        None => {
            no_number(rt, page, &word[..n]);
            Err(FAILED)
        }
    }
}

// ---- by NMI, suffix and date

// The word is no date.
pub fn no_date(rt: &impl Machine, page: &mut [u8], word: &[u8]) {
    let p = put(page, 0, b"nem: ");
    let q = quoted(page, p, word);
    let r = put(page, q, b" is no date; write it as 2003-12-19 or 20031219");
    complain(rt, page, r);
}

fn not_there(rt: &impl Machine, page: &mut [u8], nmi: &[u8], suffix: &[u8], day: u64) {
    let p = put(page, 0, b"refused: 14, no such day: the file has none of ");
    let q = put(page, p, nmi);
    let r = put(page, q, b" ");
    let s = put(page, r, suffix);
    let t = put(page, s, b" on ");
    let u = date(page, t, day);
    complain(rt, page, u);
}

// A key that stands twice tells no day, so nobody is billed from the wrong one.
fn twice(rt: &impl Machine, page: &mut [u8], first: u64, second: u64) {
    let p = put(page, 0, b"nem: the file has that day twice, as ");
    let q = number(page, p, first);
    let r = put(page, q, b" and ");
    let s = number(page, r, second);
    let t = put(page, s, b"; ask for one by its number");
    complain(rt, page, t);
}

// The one day of the key behind which no other has it.
fn single(
    rt: &impl Machine,
    page: &mut [u8],
    file: &[u8],
    first: u64,
    days: usize,
    nmi: &[u8],
    suffix: &[u8],
    day: u64,
) -> Result<usize, u8> {
    if days as u64 <= first {
        return Ok(days);
    }
    let next = first as usize + 1;
    let noted = check_and_note(file, next, 0);
    match day_named(file, next, days, noted.day, nmi, suffix, day) {
        None => Ok(first as usize),
        Some(second) => {
            twice(rt, page, first, second);
            Err(REFUSED)
        }
    }
}

fn in_file(
    rt: &impl Machine,
    page: &mut [u8],
    file: &[u8],
    nmi: &[u8],
    suffix: &[u8],
    day: u64,
) -> Result<usize, u8> {
    let noted = check_and_note(file, 0, 0);
    let answer = noted.answer;
    let start = noted.day;
    match answer {
        Err(x) => {
            let p = explained(page, 0, file, x);
            warn(rt, page, p);
            Err(REFUSED)
        }
        Ok(c) => match day_named(file, 0, c.days, start, nmi, suffix, day) {
            Some(first) => single(rt, page, file, first, c.days, nmi, suffix, day),
            None => {
                not_there(rt, page, nmi, suffix, day);
                Err(REFUSED)
            }
        },
    }
}

fn by_key(rt: &impl Machine, page: &mut [u8], file: &[u8]) -> Result<usize, u8> {
    let mut nmi = [0u8; WORD];
    let n = rt.arg(FIRST, &mut nmi);
    let mut suffix = [0u8; WORD];
    let m = rt.arg(FIRST + 1, &mut suffix);
    let mut word = [0u8; WORD];
    let k = rt.arg(FIRST + 2, &mut word);
    match date_of(&word[..k]) {
        Some(day) => in_file(rt, page, file, &nmi[..n], &suffix[..m], day),
        None => {
            no_date(rt, page, &word[..k]);
            Err(FAILED)
        }
    }
}

// The day, of so many words in all.
fn asked(rt: &impl Machine, page: &mut [u8], file: &[u8], words: usize) -> Result<usize, u8> {
    if words == BY_KEY {
        return by_key(rt, page, file);
    }
    by_number(rt, page, FIRST)
}

pub fn wanted_day(rt: &impl Machine, page: &mut [u8], file: &[u8]) -> Result<usize, u8> {
    asked(rt, page, file, rt.arg_count())
}

// The same where one more word stands behind those of the day.
pub fn wanted_before_last(rt: &impl Machine, page: &mut [u8], file: &[u8]) -> Result<usize, u8> {
    asked(rt, page, file, last_word(rt))
}

// The number of the last word, which is how many stand before it.
pub fn last_word(rt: &impl Machine) -> usize {
    rt.arg_count().saturating_sub(1)
}
