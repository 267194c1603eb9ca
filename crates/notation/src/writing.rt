// The text of a packed sheet.
ghost use Rattle.std.specs.Prelude.{◌≡◌, ◌≤◌, ◌<◌, length};
ghost use Rattle.slices.specs.Filling.{Fills};
ghost use Rattle.slices.specs.Seconds.{TimesFit};
ghost use Rattle.packed.specs.Layout.{letter_count, state_count, Valid};
ghost use Rattle.blocks.specs.Text.{timed, text_of};
ghost use Rattle.notation.specs.Writing.{out_fault, times_fault, write_fault};

use blocks::{put_sheet, timed};
use slices::{Part, Reason, Refusal, check_seconds, is_outside, refuse};

// The text of a sheet and of seconds that are good, where there is room for it.
fn put_text(
    level: usize,
    sheet: &[u8],
    s: usize,
    n: usize,
    seconds: &[u16],
    out: &mut [u8],
) -> Result<usize, Refusal>
    requires valid { Valid sheet.now × (s ≡ letter_count sheet.now) × (n ≡ state_count sheet.now) }
    requires le_level { (3 ≤ level) × (level < 5) × TimesFit (timed level s) seconds.now }
    ensures { Fills (out_fault (text_of level seconds.now sheet.now) (length out.old))
        (text_of level seconds.now sheet.now) out.old out.new result }
{
    let need = put_sheet(level, sheet, s, n, seconds, &mut out[..0]);
    if out.len() < need {
        return Err(refuse(Reason::TooLittleRoom, Part::Out, need));
    }
    put_sheet(level, sheet, s, n, seconds, out);
    Ok(need)
}

// The same where the seconds are not judged yet.
fn put_timed(
    level: usize,
    sheet: &[u8],
    s: usize,
    n: usize,
    seconds: &[u16],
    out: &mut [u8],
) -> Result<usize, Refusal>
    requires { Valid sheet.now × (s ≡ letter_count sheet.now) × (n ≡ state_count sheet.now) × (3 ≤ level) ×
        (level < 5) }
    ensures { Fills (times_fault level seconds.now sheet.now (length out.old))
        (text_of level seconds.now sheet.now) out.old out.new result }
{
    check_seconds(seconds, timed(level, s))?;
    put_text(level, sheet, s, n, seconds, out)
}

// Writes the text of a packed sheet at a level into the out slice, from its start. At level four the seconds of its
// letters are the first cells of `seconds`; at level three these are not looked at.
pub fn write(level: usize, sheet: &[u8], seconds: &[u16], out: &mut [u8]) -> Result<usize, Refusal>
    ensures { Fills (write_fault level seconds.now sheet.now (length out.old))
        (text_of level seconds.now sheet.now) out.old out.new result }
{
    if is_outside(3, 5, level) {
        return Err(refuse(Reason::UnknownLevel, Part::First, 0));
    }
    let sizes = packed::check(sheet, Part::First)?;
    put_timed(level, sheet, sizes.letters, sizes.states, seconds, out)
}
