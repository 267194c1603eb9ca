// The show of a text, in two lent slices.
ghost use Rattle.std.specs.Prelude.{◌≡◌};
ghost use Rattle.slices.specs.declared.Part.TheVariants.{First};
ghost use Rattle.lasso_text.specs.Reading.{words_of};
ghost use Rattle.answers.specs.Layout.{numbers_of, padded};
ghost use Rattle.c_show.specs.Numbers.{lasso_numbers_of, LassoTold};

use crate::ANSWER;
use answers::{SHORT, refusal_numbers, tell};
use lasso_text::Lengths;
use slices::{Part, Refusal};

fn lasso_numbers(answer: Result<Lengths, Refusal>) -> [u64; 3]
    ensures { result ≡ padded 3 (numbers_of lasso_numbers_of answer) }
{
    match answer {
        Ok(lengths) => [0, lengths.prefix as u64, lengths.period as u64],
        Err(r) => refusal_numbers(r),
    }
}

// The show of a text, its opening and its loop: both lengths.
#[unsafe(no_mangle)]
pub extern "C" fn fdfa_show_read(
    text: &[u8],
    prefix: &mut [u8],
    period: &mut [u8],
    answer: &mut [u8],
) -> u32
    ensures { LassoTold (words_of 32 First text.now)
        prefix.old period.old answer.old
        prefix.new period.new answer.new result }
{
    if answer.len() < ANSWER {
        return SHORT;
    }
    let lengths = lasso_text::read(text, Part::First, prefix, period);
    let told = lasso_numbers(lengths);
    tell(&told, answer)
}
