// A cursor over the infinite word of a lasso: letter by letter through the prefix once, then through the period for
// ever.
#![tactic(auto)]

ghost use Rattle.std.specs.Prelude.{◌≡◌};
ghost use Rattle.cursor.specs.Walking.{start_of, stepped, rest_of, rest_lies};
ghost use Rattle.cursor.specs.Passing.{passed_in};

use slices::{Part, Reason, Refusal, refuse};

// The word of the lasso that the cursor stands in.
#[derive(Clone, Copy, Debug, PartialEq, Eq)]
pub enum Phase {
    Prefix,
    Period,
}

#[derive(Clone, Copy, Debug, PartialEq, Eq)]
pub struct Cursor {
    pub phase: Phase,
    pub at: usize,
}

// A step: the letter that it passed or the refusal, and the cursor moved, or as it was.
#[derive(Clone, Copy, Debug, PartialEq, Eq)]
pub struct Step {
    pub letter: Result<u8, Refusal>,
    pub cursor: Cursor,
}

// The cursor before the first letter. It takes the prefix alone and is never refused.
pub fn start(prefix: &[u8]) -> Cursor
    ensures { result ≡ start_of prefix.now }
{
    let phase = if prefix.len() == 0 {
        Phase::Period
    } else {
        Phase::Prefix
    };
    Cursor { phase, at: 0 }
}

// The letter at the cursor in its word, and the cursor behind it.
fn pass(c: Cursor, word: &[u8]) -> Step
    ensures { result ≡ passed_in c word.now }
{
    let at = c.at;
    if word.len() <= at {
        return Step {
            letter: Err(refuse(Reason::CursorPastEnd, Part::Cursor, at)),
            cursor: c,
        };
    }
    let cursor = if at + 1 < word.len() {
        Cursor {
            phase: c.phase,
            at: at + 1,
        }
    } else {
        Cursor {
            phase: Phase::Period,
            at: 0,
        }
    };
    Step {
        letter: Ok(word[at]),
        cursor,
    }
}

impl Cursor {
    // One letter further.
    pub fn step(self, prefix: &[u8], period: &[u8]) -> Step
        ensures { result ≡ stepped self prefix.now period.now }
    {
        if period.len() == 0 {
            return Step {
                letter: Err(refuse(Reason::EmptyLoop, Part::Loop, 0)),
                cursor: self,
            };
        }
        match self.phase {
            Phase::Prefix => pass(self, prefix),
            Phase::Period => pass(self, period),
        }
    }
}

// The rest of the word that the cursor stands in, as a part of the caller's own slice. It is never refused: where a
// step would be, it is the empty part at the prefix's start.
pub fn rest<'a>(c: Cursor, prefix: &'a [u8], period: &'a [u8]) -> &'a [u8]
    ensures holds { result.now ≡ rest_of c prefix.now period.now }
    ensures lies { result.ref_ptr ≡ rest_lies c prefix.now period.now prefix.entry.ref_ptr period.entry.ref_ptr }
{
    if period.len() == 0 {
        return &prefix[..0];
    }
    let word = match c.phase {
        Phase::Prefix => prefix,
        Phase::Period => period,
    };
    let at = c.at;
    if at < word.len() {
        &word[at..]
    } else {
        &prefix[..0]
    }
}
