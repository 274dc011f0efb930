// What the field at a place of the file says, in a record that ends at e. Where the field breaks its rule, the number is 0.
#![tactic(auto)]

ghost use Rattle.std.specs.Prelude.{◌≡◌, cond, ◌≤◌, ◌<◌, ◌^◌, length, eqb};
ghost use Rattle.ground.specs.Lists.{part};
ghost use Rattle.format.specs.Cut.{fields, field};
ghost use Rattle.format.specs.Texts.{version_of};
ghost use Rattle.format.specs.Numbers.{number_in, interval_of, length_of, intervals_of, reason_of};
ghost use Rattle.format.specs.Units.{unit_of, decimals_named};
ghost use Rattle.format.specs.Dates.{date_of, time_of, load_of, read_time_of};
ghost use Rattle.format.specs.Quality.{flag_in, method_in};
ghost use Rattle.format.specs.Records.{kind_in, millionths};
ghost use Rattle.format.specs.Day.{row_at, tag_at};

use format::{Grade, Tag};
use lines::pieces::{field_at, first_field};
use units::named_decimals;

// The kind of the record, 0 where its first field is no indicator. Three bytes with a comma behind them are tried first: where they name a kind, they are the field.
pub fn kind_at(file: &[u8], at: usize, e: usize) -> u64
    requires { (at ≤ e) × (e ≤ length file.now) }
    ensures { result ≡ kind_in (fields (part file.now at e)) }
{
    if 3 < e - at {
        let z = at + 3;
        if file[z] == 44 {
            if let Some(k) = quick_kinds::indicator(&file[at..z]) {
                return k;
            }
        }
    }
    number_rules::indicator(first_field(file, at, e)).unwrap_or(0)
}

pub fn version_at(file: &[u8], a: usize, e: usize) -> u64
    requires { (a ≤ e) × (e ≤ length file.now) }
    ensures { result ≡ number_in (version_of (field 0 (fields (part file.now a e)))) }
{
    text_rules::version(first_field(file, a, e)).unwrap_or(0)
}

// n, where the field is the interval length.
pub fn intervals_at(file: &[u8], a: usize, e: usize) -> usize
    requires { (a ≤ e) × (e ≤ length file.now) }
    ensures { result ≡ intervals_of (number_in (length_of (field 0 (fields (part file.now a e))))) }
{
    number_rules::intervals(number_rules::interval_length(first_field(file, a, e)).unwrap_or(0))
}

// The number of the unit that the field names.
pub fn unit_at(file: &[u8], a: usize, e: usize) -> u8
    requires { (a ≤ e) × (e ≤ length file.now) }
    ensures { result ≡ number_in (unit_of (field 0 (fields (part file.now a e)))) }
{
    units::number(first_field(file, a, e)).unwrap_or(0) as u8
}

pub fn date_at(file: &[u8], a: usize, e: usize) -> u64
    requires { (a ≤ e) × (e ≤ length file.now) }
    ensures is { result ≡ number_in (date_of (field 0 (fields (part file.now a e)))) }
    ensures small { result < 10 ^ 8 }
{
    date_rules::date(first_field(file, a, e)).unwrap_or(0)
}

pub fn read_time_at(file: &[u8], a: usize, e: usize) -> u64
    requires { (a ≤ e) × (e ≤ length file.now) }
    ensures { result ≡ number_in (read_time_of (field 0 (fields (part file.now a e)))) }
{
    date_rules::read_time(first_field(file, a, e)).unwrap_or(0)
}

// An update time.
pub fn time_at(file: &[u8], a: usize, e: usize) -> u64
    requires { (a ≤ e) × (e ≤ length file.now) }
    ensures { result ≡ number_in (time_of (field 0 (fields (part file.now a e)))) }
{
    date_rules::time(first_field(file, a, e)).unwrap_or(0)
}

pub fn load_time_at(file: &[u8], a: usize, e: usize) -> u64
    requires { (a ≤ e) × (e ≤ length file.now) }
    ensures { result ≡ number_in (load_of (field 0 (fields (part file.now a e)))) }
{
    date_rules::load_time(first_field(file, a, e)).unwrap_or(0)
}

// A value or a quantity, in millionths.
pub fn value_of(f: &[u8]) -> u64
    ensures is { result ≡ millionths f.now }
    ensures small { result < 10 ^ 13 }
{
    value_rules::value(f, 6).unwrap_or(0)
}

// A 400's start or end.
pub fn interval_at(file: &[u8], a: usize, e: usize) -> usize
    requires { (a ≤ e) × (e ≤ length file.now) }
    ensures is { result ≡ number_in (interval_of (field 0 (fields (part file.now a e)))) }
    ensures small { result < 10000 }
{
    number_rules::interval(first_field(file, a, e)).unwrap_or(0) as usize
}

fn reason_of(f: &[u8]) -> u16
    ensures { result ≡ number_in (reason_of f.now) }
{
    number_rules::reason(f).unwrap_or(0) as u16
}

// The place of a stretch, 0 where it is empty.
pub fn start_of(at: usize, length: usize) -> usize
    ensures { result ≡ cond (eqb «length» 0) 0 at }
{
    if length == 0 {
        return 0;
    }
    at
}

// What a field says that is no quality.
const UNGRADED: Grade = Grade {
    flag: 0,
    method: 255,
};

// The quality, reason and description that stand from a on, in a record of the kind.
pub fn tag_at(file: &[u8], a: usize, e: usize, kind: u64) -> Tag
    requires { (a ≤ e) × (e ≤ length file.now) }
    ensures { result ≡ tag_at kind (row_at a (part file.now a e)) 0 }
{
    let q = field_at(file, a, e);
    let b = q.to;
    let x = q.next;
    let r = field_at(file, x, e);
    let c = r.to;
    let y = r.next;
    let d = field_at(file, y, e);
    let n = d.to - y;
    let g = quality_rules::quality(&file[a..b], kind).unwrap_or(UNGRADED);
    Tag {
        flag: g.flag,
        method: g.method,
        reason: reason_of(&file[x..c]),
        start: start_of(y, n),
        length: n,
    }
}

// How many decimals a value may have in the unit that the field names.
pub fn decimals_at(file: &[u8], a: usize, e: usize) -> usize
    requires { (a ≤ e) × (e ≤ length file.now) }
    ensures is { result ≡ decimals_named (field 0 (fields (part file.now a e))) }
    ensures few { result ≤ 6 }
{
    named_decimals(first_field(file, a, e))
}
