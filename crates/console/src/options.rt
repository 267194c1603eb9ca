// What a program is asked for by its arguments: options, and the names of files.
ghost use Rattle.std.specs.Prelude.{IfSome};
ghost use Rattle.console.specs.Files.{IsPrefixLen};

use crate::failing::{fail, fail_long};
use crate::{Asked, NAME, Word};
use std::env::{Env, FillError};
use std::io::Error;

// The system's number of an argument that is missing.
const EINVAL: i32 = 22;

// How many arguments the program was started with, its own name among them.
pub fn arg_count(rt: &HostRuntime) -> usize {
    let mut first = [0u8; 1];
    for i in 0..usize::MAX {
        match rt.arg(i, &mut first) {
            Err(FillError::NotPresent) => return i,
            _ => {}
        }
    }
    usize::MAX
}

// An argument, and its length: nothing where it is missing or too long.
fn read(rt: &HostRuntime, i: usize, word: &mut [u8]) -> usize
    ensures { IsPrefixLen result word.new }
{
    match rt.arg(i, word) {
        Ok(n) => n,
        Err(_) => 0,
    }
}

// Whether an argument is `--`.
pub fn is_end(rt: &HostRuntime, i: usize) -> bool {
    let mut word = [0u8; NAME];
    let n = read(rt, i, &mut word);
    &word[..n] == b"--".as_slice()
}

// What an argument is. An option has a `-` and more, and stands before `--`. One that is too long to be read is a name.
fn word_at(rt: &HostRuntime, i: usize, ended: bool) -> Word {
    let mut buffer = [0u8; NAME];
    let n = read(rt, i, &mut buffer);
    if ended || n < 2 {
        return Word::Name;
    }
    if buffer[0] != b'-' {
        return Word::Name;
    }
    let word = &buffer[..n];
    if word == b"--".as_slice() {
        return Word::End;
    }
    if word == b"--explain".as_slice() {
        return Word::Explain;
    }
    Word::Other
}

// What the arguments ask for: nothing where an option is not known, `-h` and `--help` among them, which asks for the
// usage.
pub fn arguments(rt: &HostRuntime) -> Option<Asked> {
    let count = arg_count(rt);
    let mut explain = false;
    let mut ended = false;
    let mut names = 0;
    let mut first = 0;
    let mut second = 0;
    for i in 1..count {
        match word_at(rt, i, ended) {
            Word::Name => {
                names += 1;
                first = second;
                second = i;
            }
            Word::End => ended = true,
            Word::Explain => explain = true,
            Word::Other => return None,
        }
    }
    Some(Asked {
        explain,
        names,
        first,
        second,
    })
}

// The name at a place of the arguments. Of one that is too long as much as there is room for, which no file has.
#[tactic(auto, using(crate::proofs::Counted::prefix_len_of_le))]
pub fn name_at(rt: &HostRuntime, i: usize, name: &mut [u8]) -> usize
    ensures { IsPrefixLen result name.new }
{
    match rt.arg(i, name) {
        Ok(n) => n,
        Err(FillError::TooLong) => name.len(),
        Err(FillError::NotPresent) => 0,
    }
}

// The whole name at a place of the arguments: none where it is too long or missing, which is said by what the name is
// called.
pub fn target_at(rt: &HostRuntime, i: usize, what: &[u8], name: &mut [u8]) -> Option<usize>
    ensures { IfSome result (λ n. IsPrefixLen n name.new) }
{
    match rt.arg(i, name) {
        Ok(n) => Some(n),
        Err(FillError::TooLong) => {
            fail_long(rt, what);
            None
        }
        Err(FillError::NotPresent) => {
            fail(rt, what, Error::from_raw_os_error(EINVAL));
            None
        }
    }
}
