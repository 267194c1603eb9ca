// A file that is written in place: first the part that it grows by, then over the bytes that it had, which are held
// until all is written. Where one of these fails, the file is as it was.
ghost use Rattle.console.specs.Files.{IsPrefixLen};

use crate::looking::Kind;
use crate::naming::{open_overwrite, open_update};
use console::{fail, say};
use std::fs::File;
use std::io::{Read, Result, Seek, SeekFrom, Write};

// A number of bytes of a slice.
pub fn within(n: usize, bytes: &[u8]) -> usize
    ensures { IsPrefixLen result bytes.now }
{
    if n < bytes.len() { n } else { bytes.len() }
}

// How many bytes of those that are written lie where a file has bytes already.
fn kept(old: u64, bytes: &[u8]) -> usize
    ensures { IsPrefixLen result bytes.now }
{
    within(old as usize, bytes)
}

// Holds the first bytes of a file, and goes to its end.
fn hold(mut file: &File, n: usize, held: &mut [u8]) -> Result<()> {
    file.seek(SeekFrom::Start(0))?;
    let m = within(n, held);
    file.read_exact(&mut held[..m])?;
    file.seek(SeekFrom::End(0))?;
    Ok(())
}

// Writes the part that a file grows by, and waits until there is room for it.
fn grow(mut file: &File, bytes: &[u8]) -> Result<()> {
    file.write_all(bytes)?;
    file.sync_all()
}

// Holds what a file has and writes the part that it grows by.
fn prepare(file: &File, n: usize, bytes: &[u8], held: &mut [u8]) -> Result<()> {
    hold(file, n, held)?;
    let m = within(n, bytes);
    grow(file, &bytes[m..])
}

// Says that a file has more bytes to be written over than can be held.
fn say_long(rt: &HostRuntime, path: &[u8]) {
    say(rt, path);
    say(
        rt,
        b": too long to be written over in place, nothing is made\n",
    );
}

// Opens a file, or makes it where a link leads to nothing.
fn open_at(rt: &HostRuntime, kind: Kind, path: &[u8]) -> Result<File> {
    if kind == Kind::Nothing {
        open_overwrite(rt, path)
    } else {
        open_update(rt, path)
    }
}

// Opens a file, or makes it where a link leads to nothing, and makes it ready. One that has more bytes to be written
// over than can be held is left as it is, which is said. Answers the file and the length that it had.
pub fn open_place(
    rt: &HostRuntime,
    kind: Kind,
    path: &[u8],
    bytes: &[u8],
    held: &mut [u8],
) -> Option<(File, u64)> {
    match open_at(rt, kind, path) {
        Ok(file) => stage_open(rt, file, path, bytes, held),
        Err(error) => {
            fail(rt, path, error);
            None
        }
    }
}

// Makes a file ready that is open.
fn stage_open(
    rt: &HostRuntime,
    mut file: File,
    path: &[u8],
    bytes: &[u8],
    held: &mut [u8],
) -> Option<(File, u64)> {
    match file.seek(SeekFrom::End(0)) {
        Ok(old) => stage_of_length(rt, file, old, path, bytes, held),
        Err(error) => {
            fail(rt, path, error);
            None
        }
    }
}

// The same of one whose length is known.
fn stage_of_length(
    rt: &HostRuntime,
    file: File,
    old: u64,
    path: &[u8],
    bytes: &[u8],
    held: &mut [u8],
) -> Option<(File, u64)> {
    let n = kept(old, bytes);
    if held.len() < n {
        say_long(rt, path);
        return None;
    }
    match prepare(&file, n, bytes, held) {
        Ok(()) => Some((file, old)),
        Err(error) => {
            fail(rt, path, error);
            give_back(&file, old, bytes);
            None
        }
    }
}

// A file that is ready, and not yet written over, is as it was.
pub fn give_back(file: &File, old: u64, bytes: &[u8]) {
    if kept(old, bytes) < bytes.len() {
        let _ = file.set_len(old);
    }
}

// From the start of a file.
fn overwrite(mut file: &File, bytes: &[u8]) -> Result<()> {
    file.seek(SeekFrom::Start(0))?;
    file.write_all(bytes)
}

// A file that was written over is as it was.
pub fn undo(file: &File, old: u64, bytes: &[u8], held: &[u8]) {
    let n = within(kept(old, bytes), held);
    let _ = overwrite(file, &held[..n]);
    give_back(file, old, bytes);
}

// Over the bytes that a file has.
pub fn write_over(
    rt: &HostRuntime,
    file: &File,
    old: u64,
    path: &[u8],
    bytes: &[u8],
    held: &[u8],
) -> bool {
    let n = kept(old, bytes);
    match overwrite(file, &bytes[..n]) {
        Ok(()) => true,
        Err(error) => {
            fail(rt, path, error);
            undo(file, old, bytes, held);
            false
        }
    }
}

// Cuts a file that was longer, and waits until all of it has reached its device.
fn cut(mut file: &File, old: u64, bytes: &[u8]) -> Result<()> {
    if kept(old, bytes) == bytes.len() {
        let end = file.seek(SeekFrom::Current(0))?;
        file.set_len(end)?;
    }
    file.sync_all()
}

// A file that was written over is made.
pub fn settle(rt: &HostRuntime, file: &File, old: u64, path: &[u8], bytes: &[u8]) -> bool {
    finish(rt, path, cut(file, old, bytes))
}

// Says what failed. Whether all went well.
pub fn finish(rt: &HostRuntime, path: &[u8], whole: Result<()>) -> bool {
    match whole {
        Ok(()) => true,
        Err(error) => {
            fail(rt, path, error);
            false
        }
    }
}
