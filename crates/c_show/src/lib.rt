// For C: shows as texts, and how long they last. Each call returns 0, and changes nothing, where the answer slice is
// too short; else 1.
#![tactic(auto)]

mod reading; // reading.rt: a text into lent slices
mod writing; // writing.rt: a show as text, its running sheet

pub use reading::fdfa_show_read;
pub use writing::{fdfa_durations, fdfa_show_write};

// The bytes of every answer.
const ANSWER: usize = 24;
