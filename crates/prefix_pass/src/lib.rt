// The pass over a prefix, which judges and walks it in one go over its letters. What the pass holds is a value, from
// which it goes on over a further part of the prefix.
#![tactic(auto)]

mod pairs; // pairs.rt: long parts, two letters at a time

ghost use Rattle.std.specs.Prelude.{◌≡◌, ◌<◌};
ghost use Rattle.fdfa.specs.Pass.{start, reached, pass_over};
ghost use Rattle.packed.specs.Columns.{column_step};
ghost use Rattle.prefix_pass.specs.Parts.{pass_says, held_in_value, told, passed_of, passed_says};
ghost use Rattle.prefix_pass.specs.Steps.{Stepping, Within};

use packed::{columns, step};
use pairs::pass_pairs;
use slices::{Part, Refusal, sum};

// What the pass holds: the leading state reached and how many letters were passed, or where it failed: the position of
// the first unknown letter, or the one that was held with a state which the sheet has not.
#[derive(Clone, Copy, Debug, PartialEq, Eq)]
pub enum Held {
    Reached { state: usize, at: usize },
    Unknown(usize),
}

// The pass before the first letter.
pub fn start() -> Held
    ensures { pass_says result ≡ start }
{
    Held::Reached { state: 0, at: 0 }
}

// Judges and walks a part from a state, by a table by letter; `at` letters came before.
fn pass(table: &[u8], letters: usize, state: usize, at: usize, part: &[u8]) -> Held
    requires { Stepping table.now letters × (state < 32) }
    ensures { pass_says result ≡ told (pass_over letters (column_step table.now) (reached state at) part.now) }
{
    let mut q = state;
    for (i, &a) in part.iter().enumerate() {
        let letter = usize::from(a);
        if letters <= letter {
            return Held::Unknown(sum(at, i));
        }
        q = step(table, q, letter);
    }
    Held::Reached {
        state: q,
        at: sum(at, part.len()),
    }
}

// The same for a long part: in pairs as far as the letters are known, and from there letter by letter.
fn pass_long(table: &[u8], letters: usize, state: usize, at: usize, part: &[u8]) -> Held
    requires { Stepping table.now letters × (state < 32) }
    ensures { pass_says result ≡ told (pass_over letters (column_step table.now) (reached state at) part.now) }
{
    let r = pass_pairs(table, letters, state, part);
    let from = r.passed;
    pass(table, letters, r.state, sum(at, from), &part[from..])
}

// The pass goes on over a part, by a table by letter. The table by pairs is worth making where the part has four
// letters or more for each of its cells.
pub fn pass_on(table: &[u8], letters: usize, held: Held, part: &[u8]) -> Held
    requires { Stepping table.now letters × Within 32 (pass_says held) }
    ensures { pass_says result ≡ told (pass_over letters (column_step table.now) (pass_says held) part.now) }
{
    match held {
        Held::Unknown(at) => Held::Unknown(at),
        Held::Reached { state, at } => {
            if part.len() < 4096 * letters {
                return pass(table, letters, state, at, part);
            }
            pass_long(table, letters, state, at, part)
        }
    }
}

// A held value, for a family of some states: one in another state has failed where it stands.
fn held_in(states: usize, held: Held) -> Held
    ensures { pass_says result ≡ held_in_value states (pass_says held) }
{
    match held {
        Held::Unknown(i) => Held::Unknown(i),
        Held::Reached { state, at } => {
            if states <= state {
                return Held::Unknown(at);
            }
            Held::Reached { state, at }
        }
    }
}

// The pass goes on over a further part of the prefix (01: the opening), in the leading automaton of a sheet. One that
// is held in a state which the sheet has not has failed where it stands.
pub fn go_on(sheet: &[u8], held: Held, part: &[u8]) -> Result<Held, Refusal>
    ensures { passed_says result ≡ passed_of sheet.now (pass_says held) part.now }
{
    let z = packed::check(sheet, Part::First)?;
    let table = columns(sheet, 2 + z.states, z.letters, z.states);
    Ok(pass_on(&table, z.letters, held_in(z.states, held), part))
}
