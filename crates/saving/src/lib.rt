// Files that are made whole or not at all, one or two at once, and whether two names are of one file. What fails is
// said on standard error.
#![tactic(auto)]

mod looking; // looking.rt: what stands at a path
mod naming; // naming.rt: files opened, renamed and removed by name
mod placing; // placing.rt: a file written in place
mod saving; // saving.rt: files written beside and renamed, or in place

pub use looking::one_file;
pub use saving::{save, save_both};
use std::fs::File;

// What is ready to be written: a device or a pipe, to be opened; a file that is open, and the length that it had; or a
// file beside the one to be made, the length of its name, and whether the one to be made is new.
#[derive(Drop)]
enum Staged {
    Stream,
    Place(File, u64),
    Beside(usize, bool),
}
