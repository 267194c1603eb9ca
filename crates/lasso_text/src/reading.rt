// The words of a text, read from left to right. A letter is stored where there is room for it, so that a text can be
// judged with empty slices.
ghost use Rattle.std.specs.Prelude.{◌≡◌, List, ℕ, ◌≤◌, length, Ok};
ghost use Rattle.format.specs.Lines.{lines_at};
ghost use Rattle.lasso_text.specs.Text.{period_name};
ghost use Rattle.lasso_text.specs.Reading.{letter, ended, words_of, LassoRead};
ghost use Rattle.lasso_text.specs.Steps.{measured, WordsRead, PeriodRead};

use crate::{LETTERS, Lengths};
use format::{Column, read_lines, read_literal};
use slices::{Part, Reason, Refusal, refuse};

// A letter of a line.
fn letter() -> Column
    ensures { result ≡ letter 32 }
{
    Column {
        low: 0,
        limit: LETTERS,
        reason: Reason::UnknownLetter,
    }
}

// What is read of a text whose lines end at a place, so many of each part.
fn ended(
    text: &[u8],
    at: usize,
    prefix: usize,
    period: usize,
    part: Part,
) -> Result<Lengths, Refusal>
    ensures { (u v : List ℕ) → length u ≡ prefix → length v ≡ period →
        result ≡ measured (ended part text.now u (Ok (record { values = v; next = at }))) }
{
    if at != text.len() {
        return Err(refuse(Reason::OffLayout, part, at));
    }
    if period == 0 {
        return Err(refuse(Reason::EmptyLoop, part, text.len()));
    }
    Ok(Lengths { prefix, period })
}

// The lines of the period, after those of the prefix, to the end of the text.
fn read_period(
    text: &[u8],
    at: usize,
    prefix: usize,
    period: &mut [u8],
    part: Part,
) -> Result<Lengths, Refusal>
    requires { at ≤ length text.now }
    ensures { PeriodRead part text.now (lines_at part text.now period_name
        (letter 32) at) prefix period.old period.new result }
{
    let lines = read_lines(text, at, b"loop ", letter(), period, part)?;
    ended(text, lines.next, prefix, lines.count, part)
}

// The whole text.
fn read_words(
    text: &[u8],
    opening: &mut [u8],
    period: &mut [u8],
    part: Part,
) -> Result<Lengths, Refusal>
    ensures { WordsRead (words_of 32 part text.now) opening.old period.old opening.new period.new result }
{
    let at = read_literal(text, 0, b"part scene\n", part)?;
    let lines = read_lines(text, at, b"opening ", letter(), opening, part)?;
    read_period(text, lines.next, lines.count, period, part)
}

// Reads the text of a lasso: its prefix and its period, each in a lent slice from its start.
pub fn read(
    text: &[u8],
    part: Part,
    opening: &mut [u8],
    period: &mut [u8],
) -> Result<Lengths, Refusal>
    ensures { LassoRead (words_of 32 part text.now) opening.old period.old opening.new period.new result }
{
    let need = read_words(text, &mut opening[..0], &mut period[..0], part)?;
    if opening.len() < need.prefix {
        return Err(refuse(Reason::TooLittleRoom, Part::Opening, need.prefix));
    }
    let short = period.len() < need.period;
    if short {
        return Err(refuse(Reason::TooLittleRoom, Part::Loop, need.period));
    }
    read_words(text, opening, period, part)
}
