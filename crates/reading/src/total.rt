// Totals one channel.
ghost use Rattle.std.specs.Prelude.{◌≡◌};
ghost use Rattle.format.specs.Answers.{totalled_as};
ghost use Rattle.format.specs.Total.{total_of};

use channel::total_noted;
use checking::tour::check_and_note;
use format::Refusal;

// What the channel of a number from 0 adds up to, in millionths: a 200's is the sum of its days' values, a 250's its quantity. The file's own refusal comes
// first, then 14 if there is no such channel.
pub fn total(file: &[u8], channel: usize) -> Result<u64, Refusal>
    ensures { totalled_as result ≡ total_of file.now channel }
{
    let t = check_and_note(file, 0, channel);
    t.answer?;
    let r = total_noted(file, channel, t.channel);
    r.answer
}
