// The text of an automaton, read from left to right, with a limit on the states that transitions lead to and on
// accepting ones. What is found is stored where there is room for it, so that a text can be judged with slices too
// short for it.
ghost use Rattle.std.specs.Prelude.{◌≡◌, cond, List, [], ◌∷◌, ℕ, ◌+◌, ◌*◌, ◌≤◌, ◌<◌, eqb, length, Ok};
ghost use Rattle.slices.specs.declared.Part.TheVariants.{First};
ghost use Rattle.numbers.specs.Storing.{Stored};
ghost use Rattle.format.specs.Lines.{repeated};
ghost use Rattle.buchi_import.specs.Reading.{transitions, accepting_states, move_count, letters_in, ended};
ghost use Rattle.buchi_import.specs.Reading.{numbers_below};
ghost use Rattle.buchi_import.specs.Steps.{sizes_of, Noted, MovesRead, AcceptingRead, RestRead, TextRead};

use crate::single::{read_move, read_state};
use crate::{Drawn, Moves};
use format::{Extent, read_literal, stands};
use slices::{Part, Reason, Refusal, refuse};

// A number, where there is room for it; and the place after it.
fn store(cells: &mut [u16], at: usize, v: usize) -> usize
    requires { (at + 1 ≤ 18446744073709551615) × (v < 65536) }
    ensures { Stored cells.old at (v ∷ []) cells.new result }
{
    if at < cells.len() {
        cells[at] = v as u16;
    }
    at + 1
}

// One more of state 0.
fn counted(c: usize, q: usize) -> usize
    requires { c ≤ 32 }
    ensures { result ≡ cond (eqb q 0) (c + 1) c }
{
    if q == 0 { c + 1 } else { c }
}

// The transitions; where each leads is stored.
fn read_moves(text: &[u8], at: usize, limit: usize, targets: &mut [u16]) -> Result<Moves, Refusal>
    requires { at ≤ length text.now }
    ensures { MovesRead (repeated First text.now 115 (transitions limit) at) targets.old targets.new result }
{
    let mut p = at;
    let mut m = 0;
    let mut c = 0;
    let mut more = stands(text, 115, at);
    while more {
        let step = read_move(text, p, m, c, limit)?;
        m = store(targets, m, step.target);
        c = counted(c, step.source);
        p = step.next;
        more = stands(text, 115, p);
    }
    Ok(Moves {
        count: m,
        of_start: c,
        next: p,
    })
}

// Notes a state by 1, where there is room for it.
fn note(finals: &mut [u8], p: usize)
    ensures { Noted finals.old (p ∷ []) finals.new }
{
    if p < finals.len() {
        finals[p] = 1;
    }
}

// The accepting states; each is noted.
fn read_accepting(
    text: &[u8],
    at: usize,
    limit: usize,
    finals: &mut [u8],
) -> Result<Extent, Refusal>
    requires { at ≤ length text.now }
    ensures { AcceptingRead (repeated First text.now 91 (accepting_states limit) at) finals.old finals.new result }
{
    let mut p = at;
    let mut k = 0;
    let mut low = 0;
    let mut more = stands(text, 91, at);
    while more {
        let state = read_state(text, p, low, limit)?;
        note(finals, state.value);
        low = state.value + 1;
        k += 1;
        p = state.next;
        more = stands(text, 91, p);
    }
    Ok(Extent { count: k, next: p })
}

// What is read of a text with m transitions, c of them of state 0, and k accepting states, which end at a place.
fn ended(text: &[u8], at: usize, m: usize, c: usize, k: usize) -> Result<Drawn, Refusal>
    requires { 0 < c }
    ensures { (ms vs : List ℕ) → move_count ms ≡ m → letters_in ms ≡ c → length vs ≡ k →
        result ≡ sizes_of (ended text.now ms (Ok (record { values = vs; next = at }))) }
{
    if at != text.len() {
        return Err(refuse(Reason::OffLayout, Part::First, at));
    }
    if k == 0 {
        return Err(refuse(Reason::NoneAccepting, Part::First, text.len()));
    }
    Ok(Drawn {
        letters: c,
        states: m / c,
    })
}

// The accepting states, after m transitions, to the end of the text.
fn read_rest(
    text: &[u8],
    at: usize,
    m: usize,
    c: usize,
    limit: usize,
    finals: &mut [u8],
) -> Result<Drawn, Refusal>
    requires { (at ≤ length text.now) × (m ≤ 16 * c) }
    ensures { RestRead limit text.now at m c finals.old finals.new result }
{
    if m == 0 {
        return Err(refuse(Reason::OffLayout, Part::First, at));
    }
    if m % c != 0 {
        return Err(refuse(Reason::OffLayout, Part::First, at));
    }
    let states = read_accepting(text, at, limit, finals)?;
    ended(text, states.next, m, c, states.count)
}

// The whole text.
pub fn read_text(
    text: &[u8],
    limit: usize,
    targets: &mut [u16],
    finals: &mut [u8],
) -> Result<Drawn, Refusal>
    ensures { TextRead (numbers_below limit text.now) targets.old targets.new finals.old finals.new result }
{
    let e = read_literal(text, 0, b"[0]\n", Part::First)?;
    let moves = read_moves(text, e, limit, targets)?;
    read_rest(text, moves.next, moves.count, moves.of_start, limit, finals)
}
