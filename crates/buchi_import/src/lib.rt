// A deterministic Büchi automaton as text (02: a drawn automaton), read as the packed sheet of its family.
#![tactic(auto)]

mod single; // single.rt: one transition, one accepting state
mod reading; // reading.rt: the whole text
mod filling; // filling.rt: the packed sheet of an automaton

ghost use Rattle.std.specs.Prelude.{◌≡◌, length, Ok};
ghost use Rattle.slices.specs.Filling.{Fills};
ghost use Rattle.buchi_import.specs.Reading.{Numbers, states_in, numbers_below, bytes_in, pack_fault, bytes_of};
ghost use Rattle.buchi_import.specs.Reading.{read_fault};
ghost use Rattle.buchi_import.specs.Steps.{sizes_of};

use filling::{put_sheet, sheet_len};
use reading::read_text;
use slices::{Part, Reason, Refusal, refuse};

// The most states that an automaton may have, and the most letters.
const STATES: usize = 16;

const LETTERS: usize = 32;

// A transition, and the place after it.
#[derive(Clone, Copy, Debug, PartialEq, Eq)]
struct Move {
    letter: usize,
    source: usize,
    target: usize,
    next: usize,
}

// How many transitions, how many of them of state 0, and the place after them.
#[derive(Clone, Copy, Debug, PartialEq, Eq)]
struct Moves {
    count: usize,
    of_start: usize,
    next: usize,
}

// The counts of a drawn automaton.
#[derive(Clone, Copy, Debug, PartialEq, Eq)]
struct Drawn {
    letters: usize,
    states: usize,
}

// The text, judged with no limit on targets and accepting states.
fn judge(text: &[u8]) -> Result<Drawn, Refusal>
    ensures { result ≡ sizes_of (numbers_below 1000 text.now) }
{
    let mut targets = [0u16; 1];
    let mut finals = [0u8; 1];
    read_text(text, 1000, &mut targets, &mut finals)
}

// The text of an automaton of n states, and the packed sheet of its family.
fn read_below(text: &[u8], n: usize, out: &mut [u8]) -> Result<usize, Refusal>
    requires { (w : Numbers) × (numbers_below 1000 text.now ≡ Ok w) × (states_in w.moves ≡ n) }
    ensures { Fills (pack_fault (numbers_below n text.now) (length out.old))
        (bytes_in (numbers_below n text.now)) out.old out.new result }
{
    let mut targets = [0u16; 512];
    let mut finals = [0u8; 16];
    let drawn = read_text(text, n, &mut targets, &mut finals)?;
    let len = sheet_len(drawn.letters, drawn.states);
    if out.len() < len {
        return Err(refuse(Reason::TooLittleRoom, Part::Out, len));
    }
    put_sheet(&targets, &finals, drawn.letters, drawn.states, out);
    Ok(len)
}

// Reads the text of an automaton: the packed sheet of its family, in the out slice from its start.
pub fn import(text: &[u8], out: &mut [u8]) -> Result<usize, Refusal>
    ensures { Fills (read_fault text.now (length out.old)) (bytes_of text.now) out.old out.new result }
{
    let drawn = judge(text)?;
    read_below(text, drawn.states, out)
}
