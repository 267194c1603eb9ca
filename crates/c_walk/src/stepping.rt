// The cursor: start, step, rest.
ghost use Rattle.std.specs.Prelude.{◌≡◌, List, ◌∷◌, ℕ, length};
ghost use Rattle.cursor.specs.Walking.{start_of, stepped, rest_of};
ghost use Rattle.answers.specs.Layout.{numbers_of, padded, Told};
ghost use Rattle.c_walk.specs.Cursors.{cursor_of_value, prefix_for_value, phase_number_of, cursor_numbers_of};
ghost use Rattle.c_walk.specs.Cursors.{step_result, moved_numbers, rest_numbers_of};

use answers::{SHORT, refusal_numbers, tell};
use cursor::{Cursor, Phase, Step};

// The bytes of the answers.
const START: usize = 24;

const STEP: usize = 32;

const REST: usize = 32;

// The numbers of the parts that a cursor stands in.
const OPENING: u64 = 2;

const LOOP: u64 = 3;

fn cursor_of(part: usize, at: usize) -> Cursor
    ensures { result ≡ cursor_of_value part at }
{
    if part as u64 == LOOP {
        return Cursor {
            phase: Phase::Period,
            at,
        };
    }
    Cursor {
        phase: Phase::Prefix,
        at,
    }
}

// The prefix as a cursor sees it: without letters where the part is neither.
fn prefix_for<'a>(part: usize, prefix: &'a [u8]) -> &'a [u8]
    ensures { result.now ≡ prefix_for_value part prefix.now }
{
    if part as u64 == OPENING {
        return prefix;
    }
    &prefix[..0]
}

fn phase_number(phase: Phase) -> u64
    ensures { result ≡ phase_number_of phase }
{
    match phase {
        Phase::Prefix => OPENING,
        Phase::Period => LOOP,
    }
}

fn cursor_numbers(c: Cursor) -> [u64; 3]
    ensures { result ≡ padded 3 (0 ∷ cursor_numbers_of c) }
{
    [0, phase_number(c.phase), c.at as u64]
}

fn step_numbers(step: Step) -> [u64; 4]
    ensures { result ≡ padded 4 (numbers_of moved_numbers (step_result step)) }
{
    let c = step.cursor;
    match step.letter {
        Ok(letter) => [0, u64::from(letter), phase_number(c.phase), c.at as u64],
        Err(r) => refusal_numbers(r),
    }
}

// The rest of a word, of which `n` letters are left.
fn rest_numbers(c: Cursor, n: usize) -> [u64; 4]
    ensures { (u v : List ℕ) → n ≡ length (rest_of c u v) → result ≡ padded 4 (0 ∷ rest_numbers_of c u v) }
{
    if n == 0 {
        return [0, OPENING, 0, 0];
    }
    [0, phase_number(c.phase), c.at as u64, n as u64]
}

fn rest_length<'a>(c: Cursor, prefix: &'a [u8], period: &'a [u8]) -> usize
    ensures { result ≡ length (rest_of c prefix.now period.now) }
{
    let back = cursor::rest(c, prefix, period);
    back.len()
}

// The cursor before the first letter: its part and its position.
#[unsafe(no_mangle)]
pub extern "C" fn fdfa_cursor_start(prefix: &[u8], answer: &mut [u8]) -> u32
    ensures { Told 3 (0 ∷ cursor_numbers_of (start_of prefix.now))
        answer.old answer.new result }
{
    if answer.len() < START {
        return SHORT;
    }
    let c = cursor::start(prefix);
    let numbers = cursor_numbers(c);
    tell(&numbers, answer)
}

// One letter further: the letter that was passed, part and position of the cursor moved.
#[unsafe(no_mangle)]
pub extern "C" fn fdfa_cursor_step(
    part: usize,
    position: usize,
    prefix: &[u8],
    period: &[u8],
    answer: &mut [u8],
) -> u32
    ensures { Told 4 (numbers_of moved_numbers (step_result
        (stepped (cursor_of_value part position) (prefix_for_value part prefix.now) period.now)))
        answer.old answer.new result }
{
    if answer.len() < STEP {
        return SHORT;
    }
    let c = cursor_of(part, position);
    let step = c.step(prefix_for(part, prefix), period);
    let numbers = step_numbers(step);
    tell(&numbers, answer)
}

// The rest of the word that the cursor stands in: its part, where it begins in the caller's slice, and its length.
#[unsafe(no_mangle)]
pub extern "C" fn fdfa_cursor_rest<'a>(
    part: usize,
    position: usize,
    prefix: &'a [u8],
    period: &'a [u8],
    answer: &mut [u8],
) -> u32
    ensures { Told 4
        (0 ∷ rest_numbers_of (cursor_of_value part position) (prefix_for_value part prefix.now) period.now)
        answer.old answer.new result }
{
    if answer.len() < REST {
        return SHORT;
    }
    let c = cursor_of(part, position);
    let n = rest_length(c, prefix_for(part, prefix), period);
    let numbers = rest_numbers(c, n);
    tell(&numbers, answer)
}
