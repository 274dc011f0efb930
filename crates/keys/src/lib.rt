// Keys: whether one is good, whether one is as it is kept, whether a kept one is that of an NMI, a suffix and a date; and letters written as they are kept.
#![tactic(auto)]

ghost use Rattle.std.specs.Prelude.{◌≡◌, ◌+◌, ◌≤◌, length, eqb};
ghost use Rattle.std.proofs.lemmas.List.Edits.{sets};
ghost use Rattle.ground.specs.Lists.{same};
ghost use Rattle.format.specs.Bytes.{capital as Bytes·capital};
ghost use Rattle.entries.specs.Keys.{key, capitals, capital_key, good_key, kept_key, same_key};

use date_rules::calendar::is_date;
use units::capital;

// A byte that is handed in, as a capital, is the kept one.
fn same_capital(given: u8, kept: u8) -> bool
    ensures { result ≡ eqb (Bytes·capital given) kept }
{
    capital(given) == kept
}

// The bytes that are handed in, letters as capitals, are the kept ones.
pub fn same_capitals(given: &[u8], kept: &[u8]) -> bool
    ensures { result ≡ same (capitals given.now) kept.now }
{
    given.len() == kept.len() && given.iter().zip(kept).all(|(g, k)| same_capital(*g, *k))
}

#[tactic(auto, unfolding(entries::specs::Keys::good_key))]
pub fn good_key(nmi: &[u8], suffix: &[u8], date: u32) -> bool
    ensures { result ≡ good_key (key nmi.now suffix.now date) }
{
    text_rules::nmi(nmi) && text_rules::suffix(suffix) && is_date(u64::from(date))
}

// A good key without a small letter.
#[tactic(auto, unfolding(entries::specs::Keys::kept_key, entries::specs::Keys::in_capitals))]
pub fn kept_key(nmi: &[u8], suffix: &[u8], date: u32) -> bool
    ensures { result ≡ kept_key (key nmi.now suffix.now date) }
{
    good_key(nmi, suffix, date) && same_capitals(nmi, nmi) && same_capitals(suffix, suffix)
}

// The key that is handed in, with capital letters, is the kept one. The date is looked at first: in a store of one meter's days it is what differs.
#[tactic(auto, unfolding(entries::specs::Keys::same_key, entries::specs::Keys::capital_key))]
pub fn is_key(
    nmi: &[u8],
    suffix: &[u8],
    date: u32,
    kept_nmi: &[u8],
    kept_suffix: &[u8],
    kept_date: u32,
) -> bool
    ensures { result ≡ same_key (capital_key (key nmi.now suffix.now date)) (key kept_nmi.now kept_suffix.now kept_date) }
{
    date == kept_date && same_capitals(nmi, kept_nmi) && same_capitals(suffix, kept_suffix)
}

// Writes bytes from place `at` on, small letters as capitals.
pub fn put_capitals(m: &mut [u8], at: usize, s: &[u8])
    requires { at + length s.now ≤ length m.old }
    ensures { m.new ≡ sets m.old at (capitals s.now) }
{
    for (i, b) in s.iter().enumerate() {
        m[at + i] = capital(*b);
    }
}
