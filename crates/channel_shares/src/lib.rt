// The shares on one channel: what each output weighs there, how many outputs are on it, and what their shares add up to.
#![tactic(auto)]

ghost use Rattle.std.specs.Prelude.{◌≡◌, ◌≤◌, length};
ghost use Rattle.ground.specs.Lists.{sum};
ghost use Rattle.tenants.specs.Outputs.{output, outputs_given};
ghost use Rattle.shares.specs.Shares.{one, count};
ghost use Rattle.channel_shares.specs.OnChannel.{has_key, weight_of, weights_of};

use keys::same_capitals;

// How many outputs the board has.
const OUTPUTS: usize = 128;

// What an output counts and weighs.
#[derive(Clone, Copy)]
struct Weight {
    count: usize,
    weight: u64,
}

// An output counts as one and weighs its share if its key is the channel's, which is in capitals.
fn weight_of(channel: &[u8], key: &[u8], share: u64) -> Weight
    requires { share ≤ 65535 }
    ensures counts { result.count ≡ one (has_key channel.now (output key.now share)) }
    ensures weighs { result.weight ≡ weight_of (has_key channel.now) (output key.now share) }
    ensures light { result.weight ≤ 65535 }
{
    if same_capitals(key, channel) {
        Weight {
            count: 1,
            weight: share,
        }
    } else {
        Weight {
            count: 0,
            weight: 0,
        }
    }
}

// The outputs on a channel, and what their shares add up to.
#[derive(Clone, Copy)]
pub struct OnChannel {
    pub outputs: usize,
    pub shares: u64,
}

// Puts what each of the 128 outputs weighs, and answers how many are on the channel and what they weigh together.
pub fn put_weights(channel: &[u8], keys: &[u8], shares: &[u16], weights: &mut [u64]) -> OnChannel
    requires { (1536 ≤ length keys.now) × (128 ≤ length shares.now) × (length weights.old ≡ 128) }
    ensures outputs { result.outputs ≡ count (has_key channel.now) (outputs_given 128 keys.now shares.now) }
    ensures shares { result.shares ≡ sum (weights_of (has_key channel.now) (outputs_given 128 keys.now shares.now)) }
    ensures weights { weights.new ≡ weights_of (has_key channel.now) (outputs_given 128 keys.now shares.now) }
{
    let mut outputs: usize = 0;
    let mut sum: u64 = 0;
    for i in 0..OUTPUTS {
        let a = 12 * i;
        let e = a + 12;
        let share = u64::from(shares[i]);
        let w = weight_of(channel, &keys[a..e], share);
        weights[i] = w.weight;
        outputs += w.count;
        sum += w.weight;
    }
    OnChannel {
        outputs,
        shares: sum,
    }
}
