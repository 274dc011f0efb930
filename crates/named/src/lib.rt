// The day of an NMI, a suffix and a date, for someone who does not know its number.
#![tactic(auto)]

ghost use Rattle.std.specs.Prelude.{◌≡◌, ◌&&◌, ◌+◌, ◌≤◌, length};
ghost use Rattle.ground.specs.Lists.{part as Lists·part};
ghost use Rattle.format.specs.Cut.{fields, field as Cut·field};
ghost use Rattle.format.specs.Units.{same_letters};
ghost use Rattle.day.specs.Places.{Heads, day_at, DayAhead, located, inside};
ghost use Rattle.named.specs.Named.{has_key, is_first, first_from, days_up_to, is_dashed, date_word};

use day::head::head_at;
use day::walk::{behind, find_day};
use day::{DayStart, Place, Under};
use leaf::digits::digits;
use page::texts::part;
use records::{NMI, SUFFIX, field};

// The same letters, whatever their case.
fn same_letters(f: &[u8], g: &[u8]) -> bool
    ensures { result ≡ same_letters f.now g.now }
{
    f.eq_ignore_ascii_case(g)
}

// The 200 is of that NMI and suffix.
fn is_channel(record: &[u8], nmi: &[u8], suffix: &[u8]) -> bool
    ensures { result ≡ (same_letters (Cut·field 1 (fields «record».now)) nmi.now && same_letters (Cut·field 4 (fields «record».now)) suffix.now) }
{
    same_letters(field(record, NMI), nmi) && same_letters(field(record, SUFFIX), suffix)
}

// The day under a 200 whose 300 stands at a..e has the key.
fn has_key(
    file: &[u8],
    a: usize,
    e: usize,
    under: Under,
    nmi: &[u8],
    suffix: &[u8],
    date: u64,
) -> bool
    requires { (a ≤ e) × (e + 2 ≤ length file.now) × Heads file.now under }
    ensures { result ≡ has_key nmi.now suffix.now date (day_at file.now a e under) }
{
    is_channel(part(file, under.at, under.end), nmi, suffix)
        && u64::from(head_at(file, a, e).date) == date
}

// The day at a place has the key, if there is one.
fn is_wanted(file: &[u8], place: Option<Place>, nmi: &[u8], suffix: &[u8], date: u64) -> bool
    requires { inside file.now place }
    ensures { result ≡ is_first (has_key nmi.now suffix.now date) (located file.now place) }
{
    match place {
        Some(day) => has_key(file, day.at, day.end, day.under, nmi, suffix, date),
        None => false,
    }
}

// The number of the first day that has the key, from the number `first` on and before `end`. From where the day `first` is found was noted by a walk that came
// by.
pub fn day_named(
    file: &[u8],
    first: usize,
    end: usize,
    start: DayStart,
    nmi: &[u8],
    suffix: &[u8],
    date: u64,
) -> Option<u64>
    requires { DayAhead file.now first start }
    ensures { result ≡ first_from (has_key nmi.now suffix.now date) first (days_up_to file.now first end) }
{
    let mut from = start;
    for k in first..end {
        let place = find_day(file, k, from);
        if is_wanted(file, place, nmi, suffix, date) {
            return Some(k as u64);
        }
        from = behind(file, place);
    }
    None
}

// ---- the words of a key

// A date as people write it, 2003-12-19.
fn is_dashed(word: &[u8]) -> bool
    ensures { result ≡ is_dashed word.now }
{
    if word.len() != 10 {
        return false;
    }
    word[4] == b'-' && word[7] == b'-'
}

// A date as a number, from 2003-12-19 or 20031219.
pub fn date_of(word: &[u8]) -> Option<u64>
    ensures { result ≡ date_word word.now }
{
    if is_dashed(word) {
        return digits(
            &[
                word[0], word[1], word[2], word[3], word[5], word[6], word[8], word[9],
            ],
            8,
            8,
        );
    }
    digits(word, 8, 8)
}
