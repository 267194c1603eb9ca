// Numbers in a text: one read at a place, and the digits of any written.
#![tactic(auto)]

mod reading; // reading.rt: the number at a place
pub mod held; // held.rt: a reader that holds a text and a place
mod writing; // writing.rt: a byte, and a number with the byte that ends it

pub use held::read_number;
pub use reading::number_at;
use slices::Refusal;
pub use writing::{put, put_field, put_small, small_width, width};

// A number that stands at a place, and the place after it.
#[derive(Clone, Copy, Debug, PartialEq, Eq)]
pub struct Number {
    pub value: usize,
    pub next: usize,
}

// A lent text, and the place that reading has reached.
#[derive(Clone, Copy, Debug, PartialEq, Eq)]
pub struct Reader<'a> {
    pub text: &'a [u8],
    pub at: usize,
}
