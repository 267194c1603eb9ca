// A show as text, and its running sheet, in the out slice: its length.
ghost use Rattle.std.specs.Prelude.{length};
ghost use Rattle.lasso_text.specs.Text.{lasso_text_of};
ghost use Rattle.lasso_text.specs.Writing as lasso-text;
ghost use Rattle.running_sheet.specs.Text.{running_sheet_of};
ghost use Rattle.running_sheet.specs.Writing as running-sheet;
ghost use Rattle.answers.specs.Layout.{FillTold};

use crate::ANSWER;
use answers::{SHORT, fill_numbers, tell};

// The text of a show.
#[unsafe(no_mangle)]
pub extern "C" fn fdfa_show_write(
    prefix: &[u8],
    period: &[u8],
    out: &mut [u8],
    answer: &mut [u8],
) -> u32
    ensures { FillTold
        (lasso-text.write_fault prefix.now period.now (length out.old))
        (lasso_text_of prefix.now period.now)
        out.old answer.old out.new answer.new result }
{
    if answer.len() < ANSWER {
        return SHORT;
    }
    let filled = lasso_text::write(prefix, period, out);
    let told = fill_numbers(filled);
    tell(&told, answer)
}

// How long a show lasts: a line for each scene with its seconds, then the totals.
#[unsafe(no_mangle)]
pub extern "C" fn fdfa_durations(
    prefix: &[u8],
    period: &[u8],
    seconds: &[u16],
    out: &mut [u8],
    answer: &mut [u8],
) -> u32
    ensures { FillTold
        (running-sheet.write_fault prefix.now period.now seconds.now
        (length out.old))
        (running_sheet_of prefix.now period.now seconds.now)
        out.old answer.old out.new answer.new result }
{
    if answer.len() < ANSWER {
        return SHORT;
    }
    let filled = running_sheet::write(prefix, period, seconds, out);
    let told = fill_numbers(filled);
    tell(&told, answer)
}
