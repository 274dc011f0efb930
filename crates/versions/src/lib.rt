// Whether lent bytes are a tenant map, its versions read, and the version that answers a date. Reading is total: bytes that the memory lacks count as 0.
#![tactic(auto)]

ghost use Rattle.std.specs.Prelude.{◌≡◌, ◌&&◌, ◌≤◌, ◌<◌, length, drop};
ghost use Rattle.ground.specs.Lists.{all, from};
ghost use Rattle.entries.specs.Little.{piece};
ghost use Rattle.tenants.specs.Outputs.{is_kept};
ghost use Rattle.tenants.specs.Versions.{version_place, version_at, count_in, versions_in, may_follow, are_versions, is_map, latest, highest, version_on};

use date_rules::calendar::is_date;
use little::{piece_at, u32_at};
use outputs::are_kept;

// The bytes that a map takes: the count, and 32 versions.
pub const BYTES: usize = 57476;

// The most versions.
pub const MOST: u32 = 32;

// How many versions are in use.
pub fn count(memory: &[u8]) -> u32
    ensures { result ≡ count_in memory.now }
{
    u32_at(memory, 0)
}

// Where the version behind i others stands.
pub fn place(i: u32) -> usize
    ensures { result ≡ version_place i }
{
    4 + 1796 * i as usize
}

pub fn first_date(memory: &[u8], i: u32) -> u32
    ensures { result ≡ (version_at memory.now i).first }
{
    u32_at(memory, place(i))
}

// The bytes of a version's entries, behind its first date.
pub fn entries_at(memory: &[u8], i: u32) -> &[u8]
    ensures { result.now ≡ drop 4 (piece memory.now (version_place i) 1796) }
{
    piece_at(memory, place(i) + 4, 1792)
}

// A first date that may come behind another one.
#[tactic(auto, unfolding(tenants::specs::Versions::may_follow))]
pub fn may_follow(last: u32, first: u32) -> bool
    ensures { result ≡ may_follow last first }
{
    is_date(u64::from(first)) && last <= first
}

// A version that may come behind one of that first date.
fn is_version(memory: &[u8], i: u32, last: u32) -> bool
    requires { (57476 ≤ length memory.now) × (i < 32) }
    ensures { result ≡ may_follow last (version_at memory.now i).first && all is_kept (version_at memory.now i).outputs }
{
    may_follow(last, first_date(memory, i)) && are_kept(entries_at(memory, i))
}

fn are_versions(memory: &[u8], n: u32) -> bool
    requires { (57476 ≤ length memory.now) × (n ≤ 32) }
    ensures { result ≡ are_versions 0 (from (version_at memory.now) 0 n) }
{
    let mut last: u32 = 0;
    for i in 0..n {
        if !is_version(memory, i, last) {
            return false;
        }
        last = first_date(memory, i);
    }
    true
}

#[tactic(auto, unfolding(tenants::specs::Versions::is_map, tenants::specs::Versions::versions_in))]
pub fn is_map(memory: &[u8]) -> bool
    ensures { result ≡ is_map memory.now }
{
    if memory.len() < BYTES {
        return false;
    }
    let n = count(memory);
    n <= MOST && are_versions(memory, n)
}

// The first date of the last version; 0 where there is none.
pub fn latest_date(memory: &[u8]) -> u32
    ensures { result ≡ latest (versions_in memory.now) }
{
    let n = count(memory);
    if n == 0 { 0 } else { first_date(memory, n - 1) }
}

// From the last version down: dates do not fall, so what is asked for is near the end most often.
fn highest_on(memory: &[u8], date: u32) -> u32
    ensures { result ≡ highest (versions_in memory.now) date (length (versions_in memory.now)) }
{
    for i in (0..count(memory)).rev() {
        if first_date(memory, i) <= date {
            return i + 1;
        }
    }
    0
}

// The version that answers a date; 0 where none does.
#[tactic(auto, unfolding(tenants::specs::Versions::version_on))]
pub fn version_on(memory: &[u8], date: u32) -> u32
    ensures { result ≡ version_on (versions_in memory.now) date }
{
    if is_date(u64::from(date)) {
        highest_on(memory, date)
    } else {
        0
    }
}
