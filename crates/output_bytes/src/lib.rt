// Entries of a tenant map written into memory, and read out of it into lent lists.
#![tactic(auto)]

ghost use Rattle.std.specs.Prelude.{◌≡◌, ◌++◌, ◌+◌, ◌≤◌, length};
ghost use Rattle.std.proofs.lemmas.List.Edits.{sets};
ghost use Rattle.entries.specs.Little.{in_bytes};
ghost use Rattle.entries.specs.Keys.{capitals};
ghost use Rattle.tenants.specs.Outputs.{outputs_in, output_bytes, keys_of, shares_of};
ghost use Rattle.tenants.specs.Calls.{kept_given};

use keys::put_capitals;
use little::put_number;
use outputs::share_in;
use text::bytes::put_bytes;

// How many outputs the board has.
const OUTPUTS: usize = 128;

// An entry as adding keeps it.
fn put_output(memory: &mut [u8], at: usize, key: &[u8], share: u16)
    requires { (length key.now ≡ 12) × (at + 14 ≤ length memory.old) }
    ensures { memory.new ≡ sets memory.old at (capitals key.now ++ in_bytes 2 share) }
{
    put_capitals(memory, at, key);
    put_number(memory, at + 12, 2, share as u64);
}

// The 128 entries that are handed in.
pub fn put_outputs(memory: &mut [u8], at: usize, keys: &[u8], shares: &[u16])
    requires { (1536 ≤ length keys.now) × (128 ≤ length shares.now) × (at + 1792 ≤ length memory.old) }
    ensures { memory.new ≡ sets memory.old at (output_bytes (kept_given keys.now shares.now)) }
{
    for i in 0..OUTPUTS {
        let a = 12 * i;
        let e = a + 12;
        put_output(memory, at + 14 * i, &keys[a..e], shares[i]);
    }
}

// The keys of 128 entries, one behind the other.
pub fn fill_keys(entries: &[u8], keys: &mut [u8])
    requires { (length entries.now ≡ 1792) × (1536 ≤ length keys.old) }
    ensures { keys.new ≡ sets keys.old 0 (keys_of (outputs_in 128 entries.now)) }
{
    for i in 0..OUTPUTS {
        let a = 14 * i;
        let e = a + 12;
        put_bytes(keys, 12 * i, &entries[a..e]);
    }
}

// And their shares.
pub fn fill_shares(entries: &[u8], shares: &mut [u16])
    requires { (length entries.now ≡ 1792) × (128 ≤ length shares.old) }
    ensures { shares.new ≡ sets shares.old 0 (shares_of (outputs_in 128 entries.now)) }
{
    for i in 0..OUTPUTS {
        let a = 14 * i;
        let e = a + 14;
        shares[i] = share_in(&entries[a..e]);
    }
}
