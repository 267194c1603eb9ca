// The text of a lasso, line by line. A byte is stored where there is room for it.
ghost use Rattle.std.specs.Prelude.{◌≡◌, ◌++◌, ◌+◌, ◌≤◌, length};
ghost use Rattle.slices.specs.Capped.{capped};
ghost use Rattle.slices.specs.Filling.{Fills};
ghost use Rattle.numbers.specs.Digits.{field};
ghost use Rattle.numbers.specs.Storing.{Stored};
ghost use Rattle.lasso_text.specs.Text.{letter_lines, lasso_text_of};
ghost use Rattle.lasso_text.specs.Writing.{write_fault};

use crate::LETTERS;
use format::put_literal;
use numbers::{put_field, width};
use slices::{Part, Reason, Refusal, check_lasso, refuse, sum};

// How long the lines of a word are, after `from` bytes.
fn measure(name: &[u8], word: &[u8], from: usize) -> usize
    ensures { result ≡ capped (from + length (letter_lines name.now word.now)) }
{
    let mut p = from;
    for &letter in word {
        p = sum(p, name.len() + width(usize::from(letter)) + 1);
    }
    p
}

// The line of a letter.
fn put_letter(name: &[u8], letter: u8, out: &mut [u8], at: usize) -> usize
    requires { at + length (name.now ++ field letter 10) ≤ 18446744073709551615 }
    ensures { Stored out.old at (name.now ++ field letter 10) out.new result }
{
    let named = put_literal(name, out, at);
    put_field(usize::from(letter), b'\n', out, named)
}

// The lines of a word.
fn put_letters(name: &[u8], word: &[u8], out: &mut [u8], at: usize) -> usize
    requires { at + length (letter_lines name.now word.now) ≤ 18446744073709551615 }
    ensures { Stored out.old at (letter_lines name.now word.now) out.new result }
{
    let mut p = at;
    for &letter in word {
        p = put_letter(name, letter, out, p);
    }
    p
}

// The whole text.
pub fn put_lasso(prefix: &[u8], period: &[u8], out: &mut [u8], at: usize) -> usize
    requires { at + length (lasso_text_of prefix.now period.now) ≤ 18446744073709551615 }
    ensures { Stored out.old at (lasso_text_of prefix.now period.now) out.new result }
{
    let named = put_literal(b"part scene\n", out, at);
    let opened = put_letters(b"opening ", prefix, out, named);
    put_letters(b"loop ", period, out, opened)
}

// Writes the text of a lasso into the out slice, from its start.
pub fn write(prefix: &[u8], period: &[u8], out: &mut [u8]) -> Result<usize, Refusal>
    ensures { Fills (write_fault prefix.now period.now (length out.old))
        (lasso_text_of prefix.now period.now) out.old out.new result }
{
    check_lasso(prefix, period, LETTERS)?;
    let opened = measure(b"opening ", prefix, 11);
    let need = measure(b"loop ", period, opened);
    let short = out.len() < need;
    if short {
        return Err(refuse(Reason::TooLittleRoom, Part::Out, need));
    }
    put_lasso(prefix, period, out, 0);
    Ok(need)
}
