// What a 300 says, from left to right: date, values, mark, times.
ghost use Rattle.std.specs.Prelude.{◌≡◌, ◌+◌, ◌≤◌, length};
ghost use Rattle.std.proofs.lemmas.List.Edits.{sets};
ghost use Rattle.ground.specs.Lists.{part};
ghost use Rattle.format.specs.Numbers.{number_in};
ghost use Rattle.format.specs.Dates.{time_of, load_of};
ghost use Rattle.format.specs.Cut.{fields, field};
ghost use Rattle.format.specs.Records.{date_in, update_in, load_in};
ghost use Rattle.format.specs.Day.{row_at, tag_at};
ghost use Rattle.lines.specs.Places.{Rest};
ghost use Rattle.day.specs.Places.{values_from};

use super::fields::{fill_values, skip};
use format::Tag;
use lines::pieces::field_at;
use says::{date_at, load_time_at, tag_at, time_at};

// Its date, and where its values start.
#[derive(Clone, Copy)]
pub struct Head {
    pub date: u32,
    pub next: usize,
}

pub fn head_at(file: &[u8], a: usize, e: usize) -> Head
    requires { (a ≤ e) × (e ≤ length file.now) }
    ensures is { result.date ≡ date_in (fields (part file.now a e)) }
    ensures rest { Rest file.now (fields (part file.now a e)) a 2 result.next e }
{
    let k = field_at(file, a, e);
    let x = k.next;
    let d = field_at(file, x, e);
    Head {
        date: date_at(file, x, e) as u32,
        next: d.next,
    }
}

// Its times.
#[derive(Clone, Copy)]
pub struct Times {
    pub update: u64,
    pub load: u64,
}

// The times of the 300 whose quality stands at a.
pub fn times_at(file: &[u8], a: usize, e: usize) -> Times
    requires { (a ≤ e) × (e ≤ length file.now) }
    ensures update { result.update ≡ number_in (time_of (field 3 (fields (part file.now a e)))) }
    ensures load { result.load ≡ number_in (load_of (field 4 (fields (part file.now a e)))) }
{
    let x = skip(file, a, e, 3);
    let u = field_at(file, x, e);
    let y = u.next;
    Times {
        update: time_at(file, x, e),
        load: load_time_at(file, y, e),
    }
}

// What it says beside its values.
#[derive(Clone, Copy)]
pub struct Top {
    pub date: u32,
    pub tag: Tag,
    pub update: u64,
    pub load: u64,
}

// Reads the 300 of n intervals that stands at a..e: its values into the list, the rest by value.
pub fn fill_top(file: &[u8], a: usize, e: usize, n: usize, values: &mut [u64]) -> Top
    requires { (a ≤ e) × (e ≤ length file.now) × (n ≤ length values.old) }
    ensures values { values.new ≡ sets values.old 0 (values_from n 2 (fields (part file.now a e))) }
    ensures date { result.date ≡ date_in (fields (part file.now a e)) }
    ensures tag { result.tag ≡ tag_at 300 (row_at a (part file.now a e)) (n + 2) }
    ensures update { result.update ≡ update_in n (fields (part file.now a e)) }
    ensures load { result.load ≡ load_in n (fields (part file.now a e)) }
{
    let h = head_at(file, a, e);
    let q = fill_values(file, h.next, e, n, values);
    let t = tag_at(file, q, e, 300);
    let w = times_at(file, q, e);
    Top {
        date: h.date,
        tag: t,
        update: w.update,
        load: w.load,
    }
}
