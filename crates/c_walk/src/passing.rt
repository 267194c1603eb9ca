// The pass over a prefix in parts: start, and on over a further part.
ghost use Rattle.std.specs.Prelude.{◌≡◌, ◌∷◌};
ghost use Rattle.fdfa.specs.Pass.{start};
ghost use Rattle.prefix_pass.specs.Parts.{pass_says, passed_of, passed_says};
ghost use Rattle.answers.specs.Layout.{numbers_of, padded, Told};
ghost use Rattle.c_walk.specs.Passes.{held_of, pass_numbers};

use answers::{SHORT, refusal_numbers, tell};
use prefix_pass::Held;
use slices::Refusal;

// The bytes of both answers.
const PASS: usize = 32;

fn held_of(failed: usize, state: usize, position: usize) -> Held
    ensures { pass_says result ≡ held_of failed state position }
{
    if failed == 0 {
        return Held::Reached {
            state,
            at: position,
        };
    }
    Held::Unknown(position)
}

fn held_numbers(held: Held) -> [u64; 4]
    ensures { result ≡ padded 4 (0 ∷ pass_numbers (pass_says held)) }
{
    match held {
        Held::Reached { state, at } => [0, 0, state as u64, at as u64],
        Held::Unknown(at) => [0, 1, 0, at as u64],
    }
}

fn passed_numbers(passed: Result<Held, Refusal>) -> [u64; 4]
    ensures { result ≡ padded 4 (numbers_of pass_numbers (passed_says passed)) }
{
    match passed {
        Ok(held) => held_numbers(held),
        Err(r) => refusal_numbers(r),
    }
}

// What the pass holds before the first letter.
#[unsafe(no_mangle)]
pub extern "C" fn fdfa_pass_start(answer: &mut [u8]) -> u32
    ensures { Told 4 (0 ∷ pass_numbers start) answer.old answer.new result }
{
    if answer.len() < PASS {
        return SHORT;
    }
    let held = prefix_pass::start();
    let numbers = held_numbers(held);
    tell(&numbers, answer)
}

// What the pass holds after a further piece of the prefix, from the three numbers that it held.
#[unsafe(no_mangle)]
pub extern "C" fn fdfa_pass_on(
    sheet: &[u8],
    failed: usize,
    state: usize,
    position: usize,
    piece: &[u8],
    answer: &mut [u8],
) -> u32
    ensures { Told 4 (numbers_of pass_numbers
        (passed_of sheet.now (held_of failed state position) piece.now))
        answer.old answer.new result }
{
    if answer.len() < PASS {
        return SHORT;
    }
    let held = held_of(failed, state, position);
    let passed = prefix_pass::go_on(sheet, held, piece);
    let numbers = passed_numbers(passed);
    tell(&numbers, answer)
}
