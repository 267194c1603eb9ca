// Files by name: read into a lent slice.
ghost use Rattle.console.specs.Files.{IsPrefixLen};

use crate::failing::fail;
use std::fs::File;
use std::io::{Error, Read, Result};
use std::str;

// What the system says of a name that is no text of its encoding.
const EILSEQ: i32 = 84;

// Reads a file into `bytes`, as far as it goes, and answers how many bytes came: 0 where there is no file or it cannot
// be read, which is said on standard error.
pub fn load(rt: &HostRuntime, path: &[u8], bytes: &mut [u8]) -> usize
    ensures { IsPrefixLen result bytes.new }
{
    match open_read(rt, path) {
        Ok(file) => read_whole(rt, file, path, bytes),
        Err(error) => {
            fail(rt, path, error);
            0
        }
    }
}

// A name as a path, which is UTF-8. A file of any other name cannot be reached.
pub fn path_of(name: &[u8]) -> Result<&str> {
    match str::from_utf8(name) {
        Ok(path) => Ok(path),
        Err(_) => Err(Error::from_raw_os_error(EILSEQ)),
    }
}

fn open_read(rt: &HostRuntime, name: &[u8]) -> Result<File> {
    match path_of(name) {
        Ok(path) => File::open(rt, path),
        Err(error) => Err(error),
    }
}

// Reads until the file ends or `bytes` is full. A read that fails makes the whole file one that cannot be read; that is
// said where it has a name.
#[tactic(auto, using(crate::proofs::Counted::prefix_len_of_le))]
fn read_whole(rt: &HostRuntime, mut file: File, name: &[u8], bytes: &mut [u8]) -> usize
    ensures { IsPrefixLen result bytes.new }
{
    let mut n = 0;
    while n < bytes.len() {
        match file.read(&mut bytes[n..]) {
            Ok(more) => {
                if more == 0 {
                    break;
                }
                n += more;
            }
            Err(error) => {
                say_failed(rt, name, error);
                return 0;
            }
        }
    }
    n
}

fn say_failed(rt: &HostRuntime, name: &[u8], error: Error) {
    if name.len() != 0 {
        fail(rt, name, error);
    }
}
