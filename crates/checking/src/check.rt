// Checks the whole file.
ghost use Rattle.std.specs.Prelude.{◌≡◌};
ghost use Rattle.format.specs.Answers.{checked_as};
ghost use Rattle.format.specs.File.{check_of};

use super::tour::check_and_note;
use format::{Checked, Refusal};

// The file's version, channels and days, or exactly its first refusal.
pub fn check(file: &[u8]) -> Result<Checked, Refusal>
    ensures { checked_as result ≡ check_of file.now }
{
    let t = check_and_note(file, 0, 0);
    t.answer
}
