// The sheet as text, at level three or four: the packed sheet and the seconds of a text, and the text of a packed
// sheet.
#![tactic(auto)]

mod reading; // reading.rt: what a text says, in lent slices
mod writing; // writing.rt: the text of a sheet in a lent slice

pub use reading::read;
pub use writing::write;

// The level of a text, and the length filled.
#[derive(Clone, Copy, Debug, PartialEq, Eq)]
pub struct Levelled {
    pub level: usize,
    pub filled: usize,
}
