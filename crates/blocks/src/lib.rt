// The blocks of a sheet's text, at both levels: read as numbers, the packed sheet filled from these, and written from a
// packed sheet.
#![tactic(auto)]

mod names; // names.rt: the names of the letters
mod seconds; // seconds.rt: the block that only level four has
mod reading; // reading.rt: the blocks read
mod filling; // filling.rt: the packed sheet of a text's numbers
mod writing; // writing.rt: the blocks written

pub use filling::{fill, row_count};
pub use reading::{read_blocks, read_progress};
pub use seconds::{fill_seconds, timed};
pub use writing::put_sheet;
