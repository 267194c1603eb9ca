// Long parts, two letters at a time: a table by pairs of letters, in which cell 1024 a + 32 b + q has the state after a
// and b from q. A step then takes the time of one load for two letters.
ghost use Rattle.std.specs.Prelude.{◌≡◌, false, ◌*◌, ◌<◌};
ghost use Rattle.prefix_pass.specs.Steps.{Stepping};
ghost use Rattle.prefix_pass.specs.Doubled.{pair_cell, pairs_of, Goes};

use packed::{step, step_from};

// How far a pass went, and the state there.
#[derive(Clone, Copy, Debug, PartialEq, Eq)]
pub struct Reach {
    pub state: usize,
    pub passed: usize,
}

// What cell i has, or 0 where there is no such second letter.
fn cell(table: &[u8], letters: usize, i: usize) -> u8
    requires { Stepping table.now letters × (i < 1024 * letters) }
    ensures { result ≡ pair_cell table.now letters i }
{
    let b = i / 32 % 32;
    if b < letters {
        let q = step(table, i % 32, i / 1024);
        return step(table, q, b) as u8;
    }
    0
}

// The table by pairs, made from a table by letter.
fn pairs(table: &[u8], letters: usize) -> [u8; 32768]
    requires { Stepping table.now letters }
    ensures { result ≡ pairs_of table.now letters }
{
    let mut two = [0u8; 32768];
    for (i, entry) in two[..1024 * letters].iter_mut().enumerate() {
        *entry = cell(table, letters, i);
    }
    two
}

fn has_unknown(letters: usize, a: usize, b: usize) -> bool
    ensures { result ≡ false → (a < letters) × (b < letters) }
{
    letters <= a || letters <= b
}

// Goes from a state over pairs of known letters, as far as there are any.
pub fn pass_pairs(table: &[u8], letters: usize, state: usize, part: &[u8]) -> Reach
    requires { Stepping table.now letters × (state < 32) }
    ensures { Goes table.now letters state part.now result }
{
    let two = pairs(table, letters);
    let mut q = state;
    for i in 0..part.len() / 2 {
        let a = usize::from(part[2 * i]);
        let b = usize::from(part[2 * i + 1]);
        if has_unknown(letters, a, b) {
            return Reach {
                state: q,
                passed: 2 * i,
            };
        }
        q = step_from(&two, 1024 * a + 32 * b, q);
    }
    Reach {
        state: q,
        passed: part.len() / 2 * 2,
    }
}
