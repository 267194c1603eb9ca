// The letters of a lasso, judged.
ghost use Rattle.slices.specs.Refusals.{fault_in};
ghost use Rattle.std.specs.Prelude.{◌≡◌};
ghost use Rattle.slices.specs.LassoLetters.{period_fault, letters_fault};

use crate::scanning::first_unknown;
use crate::{Part, Reason, Refusal, refuse};

// Judges the period: whether it is not empty, and every letter is below `letters`.
pub fn check_period(period: &[u8], letters: usize) -> Result<(), Refusal>
    ensures { fault_in result ≡ period_fault letters period.now }
{
    if period.len() == 0 {
        return Err(refuse(Reason::EmptyLoop, Part::Loop, 0));
    }
    let j = first_unknown(period, letters);
    if j < period.len() {
        return Err(refuse(Reason::UnknownLetter, Part::Loop, j));
    }
    Ok(())
}

// Judges the letters of the prefix, then the period.
pub fn check_lasso(prefix: &[u8], period: &[u8], letters: usize) -> Result<(), Refusal>
    ensures { fault_in result ≡ letters_fault letters prefix.now period.now }
{
    let i = first_unknown(prefix, letters);
    if i < prefix.len() {
        return Err(refuse(Reason::UnknownLetter, Part::Opening, i));
    }
    check_period(period, letters)
}
