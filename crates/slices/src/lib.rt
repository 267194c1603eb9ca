// What all calls share, below the model: refusals, scans of a slice, copies, and bytes of numbers.
#![tactic(auto)]

mod copying; // copying.rt: copies of a slice
mod counting; // counting.rt: a sum that stops at the largest number
mod scanning; // scanning.rt: the first byte of a slice that is out of a range
mod lassos; // lassos.rt: the letters of a lasso
mod timed; // timed.rt: the seconds of letters
mod halving; // halving.rt: numbers of 16 bits as bytes

ghost use Rattle.std.specs.Prelude.{◌≡◌};
ghost use Rattle.slices.specs.Refusals.{number_of};

pub use copying::{copy, narrow_copy};
pub use counting::sum;
pub use halving::{half_bytes, halves};
pub use lassos::{check_lasso, check_period};
pub use scanning::{first_outside, first_unknown, is_outside};
pub use timed::check_seconds;

// What a refusal concerns. A sheet or text that stands alone is `First`.
#[derive(Clone, Copy, Debug, PartialEq, Eq)]
pub enum Part {
    First,
    Second,
    Opening,
    Loop,
    Out,
    Work,
    Cursor,
    Seconds,
}

// Why a call gives no answer. Each reason has a number, by which it is known outside.
#[derive(Clone, Copy, Debug, PartialEq, Eq)]
pub enum Reason {
    // a packed sheet is too short or too long
    SheetLength,
    // the letters, the states, or those of a progress automaton are not from 1 to 32
    LetterCount,
    StateCount,
    ProgressSize,
    // a next state is not below its automaton's size, and a mark is neither 0 nor 1
    NextState,
    MarkByte,
    // two sheets have different numbers of letters
    LettersDiffer,
    EmptyLoop,
    UnknownLetter,
    UnknownLevel,
    // a text departs from its layout or ends early, and a row's numbers are not the next
    OffLayout,
    OutOfTurn,
    NoneAccepting,
    // seconds are not from 1 to 999
    SecondsRange,
    // a product has more than 32 states, or progress states
    ProductSize,
    // a lent slice is shorter than what it is to hold
    TooLittleRoom,
    TooFewCells,
    FoundTooLong,
    CursorPastEnd,
    FileTooLong,
    // a part of a show has more than 65,536 letters
    PartTooLong,
    CartCount,
    CartLength,
}

impl Reason {
    pub fn number(self) -> u8
        ensures { result ≡ number_of self }
    {
        match self {
            Reason::SheetLength => 1,
            Reason::LetterCount => 2,
            Reason::StateCount => 3,
            Reason::ProgressSize => 4,
            Reason::NextState => 5,
            Reason::MarkByte => 6,
            Reason::LettersDiffer => 7,
            Reason::EmptyLoop => 8,
            Reason::UnknownLetter => 9,
            Reason::UnknownLevel => 10,
            Reason::OffLayout => 11,
            Reason::OutOfTurn => 12,
            Reason::NoneAccepting => 13,
            Reason::SecondsRange => 14,
            Reason::ProductSize => 20,
            Reason::TooLittleRoom => 21,
            Reason::TooFewCells => 22,
            Reason::FoundTooLong => 23,
            Reason::CursorPastEnd => 24,
            Reason::FileTooLong => 25,
            Reason::PartTooLong => 26,
            Reason::CartCount => 27,
            Reason::CartLength => 28,
        }
    }
}

// A call gives no answer: the reason, what it concerns, and the place there.
#[derive(Clone, Copy, Debug, PartialEq, Eq)]
pub struct Refusal {
    pub reason: Reason,
    pub part: Part,
    pub place: usize,
}

pub fn refuse(reason: Reason, part: Part, place: usize) -> Refusal
    ensures { result ≡ record { reason = reason; part = part; place = place } }
{
    Refusal {
        reason,
        part,
        place,
    }
}
