// A number at a place of a text: a run of digits, at most three, with no needless leading zero.
ghost use Rattle.std.specs.Prelude.{◌≡◌, ℕ, ◌+◌, ◌-◌, ◌≤◌, ◌<◌, length, get_or};
ghost use Rattle.slices.specs.declared.Part.TheVariants.{First};
ghost use Rattle.numbers.specs.Numerals.{run_of, value_of, malformed, number_at_value, place_after};

use crate::Number;
use slices::{Part, Reason, Refusal, refuse};

// How many digits stand from a place on.
fn run(text: &[u8], at: usize) -> usize
    ensures { result ≡ run_of text.now at }
{
    let len = text.len();
    if len <= at {
        return 0;
    }
    slices::first_outside(text, 48, 58, at, len - at)
}

fn digit_at(text: &[u8], at: usize) -> usize
    requires { (at < length text.now) × (48 ≤ get_or text.now at 0) × (get_or text.now at 0 < 58) }
    ensures { (result ≡ get_or text.now at 0 - 48) × (result < 10) }
{
    usize::from(text[at]) - 48
}

// The value of a run of one to three digits.
fn value(text: &[u8], at: usize, run: usize) -> usize
    requires run_in_bounds { (at + run ≤ length text.now) × (1 ≤ run) × (run ≤ 3) }
    requires by_index { (i : ℕ) → i < run → (48 ≤ get_or text.now (at + i) 0) × (get_or text.now (at + i) 0 < 58) }
    ensures { result ≡ value_of text.now at run }
{
    let a = digit_at(text, at);
    if run == 1 {
        return a;
    }
    let b = digit_at(text, at + 1);
    if run == 2 {
        return a * 10 + b;
    }
    a * 100 + b * 10 + digit_at(text, at + 2)
}

// A run that is no number: none, more than three digits, or a needless leading zero.
fn is_malformed(run: usize, first: u8) -> bool
    ensures { result ≡ malformed run first }
{
    if run == 0 {
        return true;
    }
    if 3 < run {
        return true;
    }
    if run == 1 {
        return false;
    }
    first == 48
}

// The number that begins at a place; a refusal says the part that the text is.
pub fn number_at(text: &[u8], at: usize, part: Part) -> Result<Number, Refusal>
    ensures { result ≡ number_at_value part text.now at }
{
    let len = text.len();
    if len <= at {
        return Err(refuse(Reason::OffLayout, part, len));
    }
    let r = run(text, at);
    let next = at + r;
    if is_malformed(r, text[at]) {
        return Err(refuse(Reason::OffLayout, part, at));
    }
    Ok(Number {
        value: value(text, at, r),
        next,
    })
}

// The number at a place of a text that stands alone.
pub fn first_at(text: &[u8], at: usize) -> Result<Number, Refusal>
    ensures { result ≡ number_at_value First text.now at }
{
    number_at(text, at, Part::First)
}

// Past the number at a place, or that place where it is refused.
pub fn after_number(text: &[u8], at: usize) -> usize
    ensures { result ≡ place_after (number_at_value First text.now at) at }
{
    let found = first_at(text, at);
    match found {
        Ok(Number { value: _, next }) => next,
        Err(_) => at,
    }
}
