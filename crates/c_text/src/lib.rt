// For C: numbers, sheets and automata as texts. Each call returns 0, and changes nothing, where the answer
// slice is too short; else 1.
#![tactic(auto)]

mod reading; // reading.rt: texts into lent slices
mod writing; // writing.rt: a sheet as text, the sheet of an automaton

pub use reading::{fdfa_number_read, fdfa_sheet_read};
pub use writing::{fdfa_import, fdfa_sheet_write};

// The bytes of every answer.
const ANSWER: usize = 24;
