// A reader that holds the lent text and the place it has reached. Each function takes it apart and leaves the work to
// `reading`, on the text and the place; `read_number`, whose parameters are plain, is the call for users.
ghost use Rattle.std.specs.Prelude.{◌≡◌};
ghost use Rattle.slices.specs.declared.Part.TheVariants.{First};
ghost use Rattle.numbers.specs.Numerals.{number_at_value, place_after};

use crate::reading::{after_number, first_at};
use crate::{Number, Reader};
use slices::Refusal;

// At a place of a text.
pub fn reader<'a>(text: &'a [u8], at: usize) -> Reader<'a>
    ensures { (result.text ≡ text.entry) × (result.at ≡ at) }
{
    Reader { text, at }
}

// The number at the reader's place.
pub fn next<'a>(r: Reader<'a>) -> Result<Number, Refusal>
    ensures { result ≡ number_at_value First r.entry.text.now r.entry.at }
{
    first_at(r.text, r.at)
}

// The same text, past the number at the reader's place.
pub fn past<'a>(r: Reader<'a>) -> Reader<'a>
    ensures { (result.text ≡ r.entry.text) ×
        (result.at ≡ place_after (number_at_value First r.entry.text.now r.entry.at) r.entry.at) }
{
    let at = after_number(r.text, r.at);
    Reader { text: r.text, at }
}

// The number at a place of a text.
pub fn read_number(text: &[u8], at: usize) -> Result<Number, Refusal>
    ensures { result ≡ number_at_value First text.now at }
{
    next(reader(text, at))
}
