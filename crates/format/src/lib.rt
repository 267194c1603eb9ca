// Formats of texts: fixed bytes and numbers, read from left to right and written, from one description.
#![tactic(auto)]

mod reading; // reading.rt: literals, cells, rows
mod labelled; // labelled.rt: lines of a word and a number, as many as there are
mod writing; // writing.rt: literals and rows, written

pub use labelled::{read_labelled, read_lines, stands};
pub use reading::{peek, read_cell, read_literal, read_row, read_rows};
use slices::{Reason, Refusal};
pub use writing::{put_literal, put_row};

// How many numbers, and the place after them.
#[derive(Clone, Copy, Debug, PartialEq, Eq)]
pub struct Extent {
    pub count: usize,
    pub next: usize,
}

// The numbers that a column takes, from `low` to `limit` − 1, and the refusal of any other.
#[derive(Clone, Copy, Debug, PartialEq, Eq)]
pub struct Column {
    pub low: usize,
    pub limit: usize,
    pub reason: Reason,
}

// The columns of a row: three, and those after them.
#[derive(Clone, Copy, Debug, PartialEq, Eq)]
pub struct Row {
    pub first: Column,
    pub second: Column,
    pub third: Column,
    pub rest: Column,
    pub count: usize,
}
