// A sheet as text, and the packed sheet of an automaton's text, in the out slice: its length.
ghost use Rattle.std.specs.Prelude.{length};
ghost use Rattle.blocks.specs.Text.{text_of};
ghost use Rattle.notation.specs.Writing.{write_fault};
ghost use Rattle.buchi_import.specs.Reading.{bytes_of, read_fault};
ghost use Rattle.answers.specs.Layout.{FillTold};

use crate::ANSWER;
use answers::{SHORT, fill_numbers, tell};

// The text of a packed sheet at a level, with its seconds at level four.
#[unsafe(no_mangle)]
pub extern "C" fn fdfa_sheet_write(
    level: usize,
    sheet: &[u8],
    seconds: &[u16],
    out: &mut [u8],
    answer: &mut [u8],
) -> u32
    ensures { FillTold
        (write_fault level seconds.now sheet.now (length out.old))
        (text_of level seconds.now sheet.now)
        out.old answer.old out.new answer.new result }
{
    if answer.len() < ANSWER {
        return SHORT;
    }
    let filled = notation::write(level, sheet, seconds, out);
    tell(&fill_numbers(filled), answer)
}

// The packed sheet of an automaton's text.
#[unsafe(no_mangle)]
pub extern "C" fn fdfa_import(text: &[u8], out: &mut [u8], answer: &mut [u8]) -> u32
    ensures { FillTold (read_fault text.now (length out.old)) (bytes_of text.now)
        out.old answer.old out.new answer.new result }
{
    if answer.len() < ANSWER {
        return SHORT;
    }
    let filled = buchi_import::import(text, out);
    tell(&fill_numbers(filled), answer)
}
