// What the programs share: files read whole, files that are too long, what the arguments ask for, and what is printed.
#![tactic(auto)]

ghost use Rattle.std.specs.Prelude.{◌≡◌};
ghost use Rattle.slices.specs.Refusals.{fault_in};
ghost use Rattle.console.specs.Files.{length_fault, lengths_fault};

use slices::{Part, Reason, Refusal, refuse};

mod failing; // failing.rt: what failed, on standard error
mod files; // files.rt: a file's bytes in a lent slice
mod printing; // printing.rt: words, numbers and refusals on standard output
mod options; // options.rt: what the arguments ask for

pub use failing::{fail, fail_long};
pub use files::{load, path_of};
pub use options::{arg_count, arguments, is_end, name_at, target_at};
pub use printing::{print, print_refusal, refusal_text, say};

// The longest file that a program takes. One byte more is read, to tell that a file is longer.
const LONGEST: usize = 65536;

pub const ROOM: usize = LONGEST + 1;

// Room for a name.
pub const NAME: usize = 4096;

// What an argument is: a name, the end of the options, `--explain`, or another option.
#[derive(Clone, Copy, Debug, PartialEq, Eq)]
enum Word {
    Name,
    End,
    Explain,
    Other,
}

// What the arguments ask for: an explanation, and how many names there are; the last two by their place.
#[derive(Clone, Copy, Debug, PartialEq, Eq)]
pub struct Asked {
    pub explain: bool,
    pub names: usize,
    pub first: usize,
    pub second: usize,
}

// How many bytes of a program's answer are printed, and how many said.
#[derive(Clone, Copy, Debug, PartialEq, Eq)]
pub struct Output {
    pub text: usize,
    pub said: usize,
}

// Judges a file of which `length` bytes came.
pub fn check_length(length: usize, part: Part) -> Result<(), Refusal>
    ensures { fault_in result ≡ length_fault part length }
{
    if LONGEST < length {
        return Err(refuse(Reason::FileTooLong, part, LONGEST));
    }
    Ok(())
}

// Judges two files, in reading order.
pub fn check_lengths(first: usize, second: usize) -> Result<(), Refusal>
    ensures { fault_in result ≡ lengths_fault first second }
{
    check_length(first, Part::First)?;
    check_length(second, Part::Second)
}
