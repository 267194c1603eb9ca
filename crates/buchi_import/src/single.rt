// One transition, and one accepting state, read from its line.
ghost use Rattle.std.specs.Prelude.{◌≡◌, [], ◌∷◌, ◌*◌, ◌≤◌, length};
ghost use Rattle.slices.specs.declared.Part.TheVariants.{First};
ghost use Rattle.format.specs.Format.{after, reading, seq, literal};
ghost use Rattle.format.specs.Lines.{labelled};
ghost use Rattle.format.specs.Steps.{cell_says};
ghost use Rattle.buchi_import.specs.Reading.{turn, due_letter_of, due_state_of, target, from_state, transition, rising};
ghost use Rattle.buchi_import.specs.Reading.{accepting_state};
ghost use Rattle.buchi_import.specs.Steps.{move_says};

use crate::{LETTERS, Move, STATES};
use format::{Column, peek, read_labelled, read_literal};
use numbers::Number;
use slices::{Part, Reason, Refusal};

// The number that is due in its turn, which runs below a limit; v is the one that stands there.
fn turn(limit: usize, reason: Reason, due: usize, v: usize) -> Column
    requires { due ≤ 1000 }
    ensures { result ≡ turn limit reason due v }
{
    let turn = Column {
        low: due,
        limit: due + 1,
        reason: Reason::OutOfTurn,
    };
    if due != limit {
        return turn;
    }
    if v != limit {
        return turn;
    }
    Column {
        low: 0,
        limit: 0,
        reason,
    }
}

// After m transitions, c of them of state 0: the letter that is due where the letter v stands.
fn due_letter(m: usize, c: usize, v: usize) -> usize
    requires { m ≤ 16 * c }
    ensures { result ≡ due_letter_of m c v }
{
    if c != m {
        return m % c;
    }
    if v == 0 { 0 } else { m }
}

// The state that is due after the letter a.
fn due_state(m: usize, c: usize, a: usize) -> usize
    requires { m ≤ 16 * c }
    ensures { result ≡ due_state_of m c a }
{
    if c != m {
        return m / c;
    }
    usize::from(a != m)
}

// A state in brackets after a word that ends with the first of them, at the end of a line.
fn read_last(text: &[u8], at: usize, word: &[u8], column: Column) -> Result<Number, Refusal>
    requires { at ≤ length text.now }
    ensures { cell_says result ≡ reading First text.now
        (seq (labelled word.now (λ v. column) 93) (λ vs. literal (10 ∷ []))) at }
{
    let state = read_labelled(text, at, word, column, 93, Part::First)?;
    let next = read_literal(text, state.next, b"\n", Part::First)?;
    Ok(Number { next, ..state })
}

// Where a transition leads: a state below a limit.
fn read_target(text: &[u8], at: usize, a: usize, q: usize, limit: usize) -> Result<Move, Refusal>
    requires { at ≤ length text.now }
    ensures { move_says result ≡ after (a ∷ q ∷ []) (reading First text.now (target limit) at) }
{
    let below = Column {
        low: 0,
        limit,
        reason: Reason::NextState,
    };
    let target = read_last(text, at, b"->[", below)?;
    Ok(Move {
        letter: a,
        source: q,
        target: target.value,
        next: target.next,
    })
}

// The state of a transition, after its letter a, and where it leads.
fn read_source(
    text: &[u8],
    at: usize,
    a: usize,
    m: usize,
    c: usize,
    limit: usize,
) -> Result<Move, Refusal>
    requires { (at ≤ length text.now) × (m ≤ 16 * c) × (c ≤ 32) }
    ensures { move_says result ≡ after (a ∷ []) (reading First text.now (from_state limit m c a) at) }
{
    let v = peek(text, at + 1, Part::First);
    let column = turn(STATES, Reason::StateCount, due_state(m, c, a), v);
    let source = read_labelled(text, at, b"[", column, 93, Part::First)?;
    read_target(text, source.next, a, source.value, limit)
}

// A transition, after m, of which c are of state 0.
pub fn read_move(text: &[u8], at: usize, m: usize, c: usize, limit: usize) -> Result<Move, Refusal>
    requires { (at ≤ length text.now) × (m ≤ 16 * c) × (c ≤ 32) }
    ensures { move_says result ≡ reading First text.now (transition limit m c) at }
{
    let v = peek(text, at + 1, Part::First);
    let column = turn(LETTERS, Reason::LetterCount, due_letter(m, c, v), v);
    let letter = read_labelled(text, at, b"s", column, 44, Part::First)?;
    read_source(text, letter.next, letter.value, m, c, limit)
}

// The column of an accepting state where v stands: from `low` on, and below a limit.
fn rising(low: usize, limit: usize, v: usize) -> Column
    ensures { result ≡ rising low limit v }
{
    if v < low {
        return Column {
            low,
            limit,
            reason: Reason::OutOfTurn,
        };
    }
    Column {
        low,
        limit,
        reason: Reason::NextState,
    }
}

// An accepting state, from `low` on.
pub fn read_state(text: &[u8], at: usize, low: usize, limit: usize) -> Result<Number, Refusal>
    requires { at ≤ length text.now }
    ensures { cell_says result ≡ reading First text.now (accepting_state limit low) at }
{
    let v = peek(text, at + 1, Part::First);
    read_last(text, at, b"[", rising(low, limit, v))
}
