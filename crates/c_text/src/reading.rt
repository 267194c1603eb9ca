// Texts into lent slices: a number at a place, a sheet.
ghost use Rattle.std.specs.Prelude.{◌≡◌};
ghost use Rattle.slices.specs.declared.Part.TheVariants.{First};
ghost use Rattle.numbers.specs.Numerals.{number_at_value};
ghost use Rattle.notation.specs.Reading.{sheet_in};
ghost use Rattle.answers.specs.Layout.{numbers_of, padded, Told};
ghost use Rattle.c_text.specs.Numbers.{read_numbers, sheet_numbers_of, SheetTold};

use crate::ANSWER;
use answers::{SHORT, refusal_numbers, tell};
use notation::Levelled;
use numbers::Number;
use slices::Refusal;

fn number_numbers(number: Result<Number, Refusal>) -> [u64; 3]
    ensures { result ≡ padded 3 (numbers_of read_numbers number) }
{
    match number {
        Ok(n) => [0, n.value as u64, n.next as u64],
        Err(r) => refusal_numbers(r),
    }
}

fn sheet_numbers(sheet: Result<Levelled, Refusal>) -> [u64; 3]
    ensures { result ≡ padded 3 (numbers_of sheet_numbers_of sheet) }
{
    match sheet {
        Ok(s) => [0, s.level as u64, s.filled as u64],
        Err(r) => refusal_numbers(r),
    }
}

// The number at a place of a text: its value, and the place after it.
#[unsafe(no_mangle)]
pub extern "C" fn fdfa_number_read(text: &[u8], place: usize, answer: &mut [u8]) -> u32
    ensures { Told 3 (numbers_of read_numbers (number_at_value First text.now place))
        answer.old answer.new result }
{
    if answer.len() < ANSWER {
        return SHORT;
    }
    let number = numbers::read_number(text, place);
    tell(&number_numbers(number), answer)
}

// The sheet of a text: the packed sheet and, at level four, the seconds; its level, and the length of the packed sheet.
#[unsafe(no_mangle)]
pub extern "C" fn fdfa_sheet_read(
    text: &[u8],
    out: &mut [u8],
    seconds: &mut [u16],
    answer: &mut [u8],
) -> u32
    ensures { SheetTold (sheet_in text.now)
        out.old seconds.old answer.old
        out.new seconds.new answer.new result }
{
    if answer.len() < ANSWER {
        return SHORT;
    }
    let sheet = notation::read(text, out, seconds);
    tell(&sheet_numbers(sheet), answer)
}
