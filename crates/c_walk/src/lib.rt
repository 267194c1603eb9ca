// For C: the cursor over a lasso, and the pass over a prefix that comes in parts; both by numbers. Each call returns
// 0, and changes nothing, where the answer slice is too short; else 1.
#![tactic(auto)]

mod stepping; // stepping.rt: the cursor
mod passing; // passing.rt: the pass

pub use passing::{fdfa_pass_on, fdfa_pass_start};
pub use stepping::{fdfa_cursor_rest, fdfa_cursor_start, fdfa_cursor_step};
