// Reads one day.
ghost use Rattle.std.specs.Prelude.{◌≡◌};
ghost use Rattle.format.specs.Answers.{day_read_as};
ghost use Rattle.format.specs.Day.{five, outcome, read_of};

use checking::tour::check_and_note;
use filling::read_noted;
use format::{DayRead, Refusal};

// Reads the day of a number from 0 into six lent lists, one element an interval: values in millionths, flags as their letters' bytes, methods (255 if none),
// reasons (65535 if none), and where in the file each description starts (0 if it is empty) and how long it is. The file's own refusal comes first, then
// 14 if there is no such day, then 15 if a list is shorter than the day's n. A refusal leaves every list as it was, and places behind n keep what they held.
pub fn read_day(
    file: &[u8],
    day: usize,
    values: &mut [u64],
    flags: &mut [u8],
    methods: &mut [u8],
    reasons: &mut [u16],
    starts: &mut [usize],
    lengths: &mut [usize],
) -> Result<DayRead, Refusal>
    ensures { outcome (day_read_as result) values.new (five flags.new methods.new reasons.new starts.new lengths.new) ≡ read_of file.now day values.old (five flags.old methods.old reasons.old starts.old lengths.old) }
{
    let t = check_and_note(file, day, 0);
    t.answer?;
    let r = read_noted(
        file, day, t.day, values, flags, methods, reasons, starts, lengths,
    );
    r.answer
}
