// The used map of a store: one bit of a u64 for each slot, by shifts and masks.
#![tactic(auto)]

ghost use Rattle.std.specs.Prelude.{◌≡◌, ◌^◌, ◌<◌};
ghost use Rattle.store.specs.Used.{used, taken, freed, held, free_from, none_past};

// How many slots a map has a bit for.
const SLOTS: u32 = 64;

// Whether slot s is in use. No slot is that a map has no bit for.
pub fn is_used(map: u64, s: u32) -> bool
    ensures { result ≡ used map s }
{
    s < SLOTS && (map >> s) & 1 == 1
}

// The bit of slot s.
fn bit(s: u32) -> u64
    requires { s < 64 }
    ensures { result ≡ 2 ^ s }
{
    1u64 << s
}

// The map with slot s in use.
pub fn set_used(map: u64, s: u32) -> u64
    requires { s < 64 }
    ensures { result ≡ taken map s }
{
    map | bit(s)
}

// The map with slot s free.
pub fn set_free(map: u64, s: u32) -> u64
    ensures { result ≡ freed map s }
{
    if s < SLOTS { map & !bit(s) } else { map }
}

// How many slots are in use.
pub fn count(map: u64) -> u32
    ensures { result ≡ held map }
{
    map.count_ones()
}

// The lowest free slot, `slots` where each below it is in use.
pub fn lowest_free(map: u64, slots: u32) -> u32
    ensures { result ≡ free_from map 0 slots }
{
    (!map).trailing_zeros().min(slots)
}

// Whether no bit is set at `slots` or past it.
pub fn none_past(map: u64, slots: u32) -> bool
    ensures { result ≡ none_past map slots }
{
    SLOTS <= slots || map >> slots == 0
}
