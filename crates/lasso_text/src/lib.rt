// A lasso as text (01: a show; the block `part scene`): read into two lent slices, and written.
#![tactic(auto)]

mod reading; // reading.rt: the words of a text
mod writing; // writing.rt: the text of a lasso

pub use reading::read;
use slices::Refusal;
pub use writing::{put_lasso, write};

// The letters that a text may have are those below it.
const LETTERS: usize = 32;

// The lengths of both words.
#[derive(Clone, Copy, Debug, PartialEq, Eq)]
pub struct Lengths {
    pub prefix: usize,
    pub period: usize,
}
