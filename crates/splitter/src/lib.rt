// A day's total split over the outputs on its channel: a total that is handed in, a day of a file, a day that a store holds. docs/SPLIT.md tells what it is for.
#![tactic(auto)]

ghost use Rattle.std.specs.Prelude.{◌≡◌, ◌&&◌, true, ◌++◌, length, leb};
ghost use Rattle.format.specs.Texts.{is_nmi, is_suffix};
ghost use Rattle.entries.specs.Left.{left};
ghost use Rattle.entries.specs.Keys.{key, capitals};
ghost use Rattle.tenants.specs.Outputs.{outputs_given};
ghost use Rattle.channel_shares.specs.OnChannel.{has_key};
ghost use Rattle.splits.specs.Calls.{split_as, is_on, shared_of, split_of, split_on, split_day_of, split_stored_of};
ghost use Rattle.splitter.specs.Steps.{Fit};

use channel_shares::put_weights;
use day_sums::{date_of, nmi_of, seek_day, suffix_of, sum_of};
use format::Refusal;
use keys::put_capitals;
use outputs::are_fit;
use shares::share_out;
use stored_sums::stored_sum;
use tenant_map::map_on;

// The largest total: 288 values, each below 10^13.
const LARGEST: u64 = 2880000000000000;

// Places for the keys, the shares and the parts of 128 outputs.
const KEY_BYTES: usize = 1536;

const OUTPUTS: usize = 128;

fn is_channel(nmi: &[u8], suffix: &[u8]) -> bool
    ensures { result ≡ (is_nmi nmi.now && is_suffix suffix.now) }
{
    if !text_rules::nmi(nmi) {
        return false;
    }
    text_rules::suffix(suffix)
}

// Puts the channel's key, NMI and suffix, in capitals.
fn put_channel(nmi: &[u8], suffix: &[u8], channel: &mut [u8])
    requires { ((is_nmi nmi.now && is_suffix suffix.now) ≡ true) × (length channel.old ≡ 12) }
    ensures { channel.new ≡ capitals (nmi.now ++ suffix.now) }
{
    put_capitals(channel, 0, nmi);
    put_capitals(channel, 10, suffix);
}

// Splits over the outputs of a key in capitals, where nothing but the sum of their shares can refuse.
fn split_known(
    total: u64,
    channel: &[u8],
    keys: &[u8],
    shares: &[u16],
    parts: &mut [u64],
) -> Result<usize, Refusal>
    requires { Fit total keys.now shares.now parts.old }
    ensures { left (split_as result) parts.new ≡ shared_of total (has_key channel.now) (outputs_given 128 keys.now shares.now) parts.old }
{
    let mut weights: [u64; 128] = [0; 128];
    let on = put_weights(channel, keys, shares, &mut weights);
    if on.shares == 0 {
        return Err(Refusal::bare(26));
    }
    share_out(total, on.shares, &weights, parts);
    Ok(on.outputs)
}

// The same over the outputs on a channel.
fn split_fit(
    total: u64,
    nmi: &[u8],
    suffix: &[u8],
    keys: &[u8],
    shares: &[u16],
    parts: &mut [u64],
) -> Result<usize, Refusal>
    requires { Fit total keys.now shares.now parts.old }
    ensures { left (split_as result) parts.new ≡ shared_of total (is_on nmi.now suffix.now) (outputs_given 128 keys.now shares.now) parts.old }
{
    if !is_channel(nmi, suffix) {
        return Err(Refusal::bare(26));
    }
    let mut channel: [u8; 12] = [0; 12];
    put_channel(nmi, suffix, &mut channel);
    split_known(total, &channel, keys, shares, parts)
}

// Lists of these lengths are long enough for 128 outputs.
fn are_enough(parts: usize, keys: usize, shares: usize) -> bool
    ensures { result ≡ (leb 128 parts && (leb 1536 keys && leb 128 shares)) }
{
    if parts < OUTPUTS {
        return false;
    }
    if keys < KEY_BYTES {
        return false;
    }
    OUTPUTS <= shares
}

// Splits a total over the outputs whose key is the channel's NMI and suffix, letters of either case. Keys are 128 times twelve bytes, NMI and suffix. Parts 0 to 127
// are set, and more keep what they held; a refusal changes none. 27 for a total above 2,880,000,000,000,000; 15 for fewer than 128 parts, 128 shares or 1,536 key
// bytes; 25 for an entry that a map may not have; 26 if the channel's shares add up to 0.
pub fn split(
    total: u64,
    nmi: &[u8],
    suffix: &[u8],
    keys: &[u8],
    shares: &[u16],
    parts: &mut [u64],
) -> Result<usize, Refusal>
    ensures { left (split_as result) parts.new ≡ split_of total nmi.now suffix.now keys.now shares.now parts.old }
{
    if LARGEST < total {
        return Err(Refusal::bare(27));
    }
    if !are_enough(parts.len(), keys.len(), shares.len()) {
        return Err(Refusal::bare(15));
    }
    if !are_fit(keys, shares) {
        return Err(Refusal::bare(25));
    }
    split_fit(total, nmi, suffix, keys, shares, parts)
}

// Splits by the map on a date: 21 if the memory is no map, 14 if the date has no version.
fn split_on(
    total: u64,
    nmi: &[u8],
    suffix: &[u8],
    date: u32,
    memory: &[u8],
    parts: &mut [u64],
) -> Result<usize, Refusal>
    ensures { left (split_as result) parts.new ≡ split_on total nmi.now suffix.now date memory.now parts.old }
{
    let mut keys: [u8; 1536] = [0; 1536];
    let mut shares: [u16; 128] = [0; 128];
    map_on(memory, date, &mut keys, &mut shares)?;
    split(total, nmi, suffix, &keys, &shares, parts)
}

// Splits the sum of a day of a file by the map that memory holds, on the day's date. The file's own refusal comes first, then 14 if there is no such day; 21 if the
// memory is no map, 14 if the date has no version; then as `split`.
pub fn split_day(
    file: &[u8],
    day: usize,
    memory: &[u8],
    parts: &mut [u64],
) -> Result<usize, Refusal>
    ensures { left (split_as result) parts.new ≡ split_day_of file.now day memory.now parts.old }
{
    let at = seek_day(file, day)?;
    split_on(
        sum_of(file, at),
        nmi_of(file, at),
        suffix_of(file, at),
        date_of(file, at),
        memory,
        parts,
    )
}

// Splits the sum of a day that a store holds by the map that memory holds, on the day's date. 21 if the store is none, 14 if it has no day of that key; then as
// `split_day` does.
pub fn split_stored(
    store: &[u8],
    nmi: &[u8],
    suffix: &[u8],
    date: u32,
    memory: &[u8],
    parts: &mut [u64],
) -> Result<usize, Refusal>
    ensures { left (split_as result) parts.new ≡ split_stored_of store.now (key nmi.now suffix.now date) memory.now parts.old }
{
    let sum = stored_sum(store, nmi, suffix, date)?;
    split_on(sum, nmi, suffix, date, memory, parts)
}
