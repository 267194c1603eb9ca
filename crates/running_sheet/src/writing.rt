// A running sheet in a lent slice: judged, measured, then stored.
ghost use Rattle.std.specs.Prelude.{◌+◌, ◌≤◌, ◌<◌, length};
ghost use Rattle.slices.specs.declared.Part.TheVariants.{Out};
ghost use Rattle.slices.specs.Refusals.{short};
ghost use Rattle.slices.specs.Filling.{Fills};
ghost use Rattle.numbers.specs.Storing.{Stored};
ghost use Rattle.running_sheet.specs.Text.{totals_text, running_sheet_of};
ghost use Rattle.running_sheet.specs.Writing.{write_fault};
ghost use Rattle.running_sheet.specs.Places.{timed_line, timed_lines, first_block};
ghost use Rattle.running_sheet.specs.Steps.{Measurable};

use crate::judging::check_show;
use crate::lasting::{measure, sum_seconds};
use format::put_literal;
use numbers::{put_field, put_small, width};
use slices::{Part, Reason, Refusal, refuse};

// Both lines of names, and the bytes that end the totals.
const NAMES: usize = 34;

// What begins a line. There is room for it, so no byte asks.
fn put_start(start: &[u8], out: &mut [u8], at: usize) -> usize
    requires { at + length start.now ≤ length out.old }
    ensures { Stored out.old at start.now out.new result }
{
    let end = at + start.len();
    out[at..end].copy_from_slice(start);
    end
}

// The line of a letter.
fn put_line(start: &[u8], letter: usize, seconds: usize, out: &mut [u8], at: usize) -> usize
    requires { (letter < 1000) × (seconds < 1000) ×
        (at + length (timed_line start.now letter seconds) ≤ length out.old) }
    ensures { Stored out.old at (timed_line start.now letter seconds)
        out.new result }
{
    let named = put_start(start, out, at);
    let lettered = put_small(letter, b' ', out, named);
    put_small(seconds, b'\n', out, lettered)
}

// The lines of a part.
fn put_lines(start: &[u8], word: &[u8], seconds: &[u16], out: &mut [u8], at: usize) -> usize
    requires { Measurable word.now seconds.now ×
        (at + length (timed_lines start.now word.now seconds.now) ≤ length out.old) }
    ensures { Stored out.old at
        (timed_lines start.now word.now seconds.now) out.new result }
{
    let mut p = at;
    for &c in word {
        let letter = usize::from(c);
        p = put_line(start, letter, usize::from(seconds[letter]), out, p);
    }
    p
}

// The first block.
fn put_show(prefix: &[u8], period: &[u8], seconds: &[u16], out: &mut [u8]) -> usize
    requires { Measurable prefix.now seconds.now × Measurable period.now seconds.now ×
        (length (first_block prefix.now period.now seconds.now) ≤ length out.old) }
    ensures { Stored out.old 0
        (first_block prefix.now period.now seconds.now) out.new result }
{
    let named = put_literal(b"part scene seconds\n", out, 0);
    let opened = put_lines(b"opening ", prefix, seconds, out, named);
    put_lines(b"loop ", period, seconds, out, opened)
}

// The second block.
fn put_totals(opening: usize, turn: usize, out: &mut [u8], at: usize) -> usize
    requires { at + length (totals_text opening turn) ≤ 18446744073709551615 }
    ensures { Stored out.old at (totals_text opening turn) out.new result }
{
    let named = put_literal(b"opening loop\n", out, at);
    let opened = put_field(opening, b' ', out, named);
    put_field(turn, b'\n', out, opened)
}

// The running sheet of a show that was judged: measured, then written.
fn fill(prefix: &[u8], period: &[u8], seconds: &[u16], out: &mut [u8]) -> Result<usize, Refusal>
    requires { Measurable prefix.now seconds.now × Measurable period.now seconds.now }
    ensures { Fills
        (short Out (length out.old)
        (length (running_sheet_of prefix.now period.now seconds.now)))
        (running_sheet_of prefix.now period.now seconds.now)
        out.old out.new result }
{
    let opening = sum_seconds(prefix, seconds);
    let turn = sum_seconds(period, seconds);
    let lines = measure(b"opening ", prefix, seconds) + measure(b"loop ", period, seconds);
    let need = lines + width(opening) + width(turn) + NAMES;
    if out.len() < need {
        return Err(refuse(Reason::TooLittleRoom, Part::Out, need));
    }
    let at = put_show(prefix, period, seconds, out);
    put_totals(opening, turn, out, at);
    Ok(need)
}

// Writes the running sheet of a show into the out slice, from its start.
pub fn write(
    prefix: &[u8],
    period: &[u8],
    seconds: &[u16],
    out: &mut [u8],
) -> Result<usize, Refusal>
    ensures { Fills
        (write_fault prefix.now period.now seconds.now (length out.old))
        (running_sheet_of prefix.now period.now seconds.now)
        out.old out.new result }
{
    check_show(prefix, period, seconds)?;
    fill(prefix, period, seconds, out)
}
