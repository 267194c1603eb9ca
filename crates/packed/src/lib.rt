// The packed sheet: a family of DFAs as bytes. It is checked here, and its tables are read here.
#![tactic(auto)]

mod checking; // checking.rt: whether bytes are a packed sheet
mod walking; // walking.rt: a table by letter, and walks along a word

ghost use Rattle.std.specs.Prelude.{◌≡◌, ◌+◌, ◌*◌, ◌≤◌, ◌<◌, eqb, length, get_or};
ghost use Rattle.packed.specs.Layout.{letter_count, state_count, size_of, progress_at_value, table_step, Header};

pub use checking::{check, check_pair};
pub use walking::{columns, step, step_from, walk};

// The counts of a sheet: s, n and the largest k(q).
#[derive(Clone, Copy, Debug, PartialEq, Eq)]
pub struct Sizes {
    pub letters: usize,
    pub states: usize,
    pub widest: usize,
}

// The counts of two sheets.
#[derive(Clone, Copy, Debug, PartialEq, Eq)]
pub struct BothSizes {
    pub first: Sizes,
    pub second: Sizes,
}

// How many letters the sheet has, and how many leading states.
pub fn letters(sheet: &[u8]) -> usize
    requires { 0 < length sheet.now }
    ensures { result ≡ letter_count sheet.now }
{
    usize::from(sheet[0])
}

pub fn states(sheet: &[u8]) -> usize
    requires { 1 < length sheet.now }
    ensures { result ≡ state_count sheet.now }
{
    usize::from(sheet[1])
}

// The size of the progress automaton of q.
pub fn size(sheet: &[u8], q: usize) -> usize
    requires { 2 + q < length sheet.now }
    ensures { result ≡ size_of sheet.now q }
{
    usize::from(sheet[2 + q])
}

// Where the part of leading state q begins: its next states, then its marks.
pub fn progress_at(sheet: &[u8], q: usize) -> usize
    requires { Header sheet.now × (q ≤ state_count sheet.now) }
    ensures { result ≡ progress_at_value sheet.now q }
{
    let s = letters(sheet);
    let n = states(sheet);
    let mut at = 2 + n + n * s;
    for r in 0..q {
        at += size(sheet, r) * (s + 1);
    }
    at
}

// The next state by a table of `letters` entries a state that begins at `at`.
pub fn next(sheet: &[u8], at: usize, letters: usize, state: usize, letter: usize) -> usize
    requires { at + (state * letters + letter) < length sheet.now }
    ensures { result ≡ table_step sheet.now at letters state letter }
{
    usize::from(sheet[at + (state * letters + letter)])
}

// Whether a state is marked, by marks that begin at `at`.
pub fn is_marked(sheet: &[u8], at: usize, state: usize) -> bool
    requires { at + state < length sheet.now }
    ensures { result ≡ eqb (get_or sheet.now (at + state) 0) 1 }
{
    sheet[at + state] == 1
}
