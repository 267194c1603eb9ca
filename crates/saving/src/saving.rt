// Files that are made whole or not at all. A regular file, or one that is not there yet, is written beside and then
// renamed; what a link leads to is written in place, and as it was where that fails; a device or a pipe takes the bytes
// as they come. What fails is said on standard error.
ghost use Rattle.std.specs.Prelude.{◌≤◌, length};
ghost use Rattle.console.specs.Files.{IsPrefixLen};

use crate::Staged;
use crate::looking::{Kind, Seen, folder, is_link, look, one_file};
use crate::naming::{open, open_append, open_overwrite, rename, unlink};
use crate::placing::{finish, give_back, open_place, settle, undo, within, write_over};
use console::fail;
use format::put_literal;
use std::fs::{File, OpenOptions, Permissions};
use std::io::{Error, ErrorKind, Result, Write};
use std::os::unix::fs::{OpenOptionsExt, PermissionsExt, fchown};
use std::random::RandomSource;

// Room for the name of a file beside another, or for the bytes of one that is written over: the longest text of a sheet
// has 109,630 bytes.
const ROOM: usize = 110592;

// How many letters at the end of a name are drawn, and how often.
const DRAWN: usize = 6;

const TRIES: usize = 100;

// The system's number of a name that nothing has.
const ENOENT: i32 = 2;

// And of one that another file has.
const EEXIST: i32 = 17;

// The name of a file in the folder of another, to be completed, and its length.
fn name_beside(path: &[u8], name: &mut [u8]) -> usize
    ensures { IsPrefixLen result name.new }
{
    let n = folder(path);
    let at = put_literal(&path[..n], name, 0);
    let end = put_literal(b".new.XXXXXX", name, at);
    within(end, name)
}

// A letter or a digit.
fn letter(drawn: u8) -> u8 {
    let n = drawn % 62;
    if n < 10 {
        b'0' + n
    } else if n < 36 {
        b'A' + (n - 10)
    } else {
        b'a' + (n - 36)
    }
}

// Completes a name by letters that are drawn.
fn draw(rt: &HostRuntime, name: &mut [u8]) -> Result<()> {
    let mut drawn = [0u8; DRAWN];
    rt.fill_bytes(&mut drawn)?;
    for (cell, &byte) in name.iter_mut().rev().zip(&drawn) {
        *cell = letter(byte);
    }
    Ok(())
}

// Completes the name and makes the file, which no one else has made. One that takes the place of another is nobody
// else's until it has that one's mode; a new one has the usual mode.
fn make_beside(rt: &HostRuntime, kind: Kind, name: &mut [u8]) -> Result<File> {
    let mut how = OpenOptions::new();
    how.write(true);
    how.create_new(true);
    how.mode(if kind == Kind::File { 0o600 } else { 0o666 });
    for _ in 0..TRIES {
        draw(rt, name)?;
        match open(rt, &how, name) {
            Ok(file) => return Ok(file),
            Err(error) => {
                if error.kind() != ErrorKind::AlreadyExists {
                    return Err(error);
                }
            }
        }
    }
    Err(Error::from_raw_os_error(EEXIST))
}

// Writes all of a file and waits until it has reached its device. One that takes the place of another has that one's
// mode and, where it may be, its owner and group.
fn fill(mut file: &File, old: Seen, bytes: &[u8]) -> Result<()> {
    file.write_all(bytes)?;
    if old.kind == Kind::File {
        let _ = fchown(file, Some(old.owner), Some(old.group));
        file.set_permissions(Permissions::from_mode(old.mode))?;
    }
    file.sync_all()
}

// Makes a file ready in its place.
fn stage_place(
    rt: &HostRuntime,
    kind: Kind,
    path: &[u8],
    bytes: &[u8],
    held: &mut [u8],
) -> Option<Staged> {
    let (file, old) = open_place(rt, kind, path, bytes, held)?;
    Some(Staged::Place(file, old))
}

// Where no file can be made beside: in place of the one that is there.
fn stage_instead(
    rt: &HostRuntime,
    kind: Kind,
    path: &[u8],
    bytes: &[u8],
    held: &mut [u8],
    why: Error,
) -> Option<Staged> {
    if kind == Kind::Nothing {
        fail(rt, path, why);
        return None;
    }
    stage_place(rt, kind, path, bytes, held)
}

// Writes a file beside the one to be made.
fn stage_beside(
    rt: &HostRuntime,
    path: &[u8],
    bytes: &[u8],
    name: &mut [u8],
    old: Seen,
) -> Option<Staged> {
    let n = name_beside(path, name);
    match make_beside(rt, old.kind, &mut name[..n]) {
        Ok(file) => {
            let whole = fill(&file, old, bytes);
            if !finish(rt, path, whole) {
                remove(rt, n, name);
                return None;
            }
            Some(Staged::Beside(n, old.kind == Kind::Nothing))
        }
        Err(error) => stage_instead(rt, old.kind, path, bytes, name, error),
    }
}

// Whether a regular file may be written: it is opened at its end, and nothing is written.
fn try_write(rt: &HostRuntime, kind: Kind, path: &[u8]) -> Result<()> {
    if kind == Kind::Nothing {
        return Ok(());
    }
    match open_append(rt, path) {
        Ok(_) => Ok(()),
        // A program that is running may have its place taken.
        Err(error) if error.kind() == ErrorKind::ExecutableFileBusy => Ok(()),
        Err(error) => Err(error),
    }
}

fn may_write(rt: &HostRuntime, kind: Kind, path: &[u8]) -> bool {
    finish(rt, path, try_write(rt, kind, path))
}

// Whether a name can be one: not empty, not too long, and in a folder that is there. What is wrong is said.
fn is_usable(rt: &HostRuntime, seen: Seen, path: &[u8]) -> bool {
    match seen.why {
        None => true,
        Some(error) => {
            if path.len() != 0 && error.raw_os_error() == Some(ENOENT) {
                return true;
            }
            fail(rt, path, error);
            false
        }
    }
}

// Makes ready what can be, and leaves what is there as it is. The lent slice has the name of the file beside, or the
// bytes of the file in place.
fn stage(rt: &HostRuntime, path: &[u8], bytes: &[u8], name: &mut [u8]) -> Option<Staged> {
    let seen = look(rt, path);
    if !is_usable(rt, seen, path) {
        return None;
    }
    if seen.kind == Kind::Other {
        return Some(Staged::Stream);
    }
    if is_link(rt, path) {
        return stage_place(rt, seen.kind, path, bytes, name);
    }
    if !may_write(rt, seen.kind, path) {
        return None;
    }
    stage_beside(rt, path, bytes, name, seen)
}

// Writes all that a device or a pipe is given.
fn pour(rt: &HostRuntime, path: &[u8], bytes: &[u8]) -> Result<()> {
    let mut file = open_overwrite(rt, path)?;
    file.write_all(bytes)
}

// To a device or a pipe, which is opened only now: the open of a pipe waits for who reads it.
fn put_stream(rt: &HostRuntime, path: &[u8], bytes: &[u8]) -> bool {
    finish(rt, path, pour(rt, path, bytes))
}

// Where the name of a file that is there cannot be taken, as at a mount point: in place.
fn put_instead(rt: &HostRuntime, path: &[u8], bytes: &[u8], held: &mut [u8]) -> bool {
    let Some((file, old)) = open_place(rt, Kind::File, path, bytes, held) else {
        return false;
    };
    write_over(rt, &file, old, path, bytes, held) && settle(rt, &file, old, path, bytes)
}

// The file beside takes the name.
fn put_beside(
    rt: &HostRuntime,
    n: usize,
    new: bool,
    path: &[u8],
    bytes: &[u8],
    name: &mut [u8],
) -> bool {
    let m = within(n, name);
    match rename(rt, &name[..m], path) {
        Ok(()) => return true,
        Err(error) => {
            if new {
                fail(rt, path, error);
            }
        }
    }
    remove(rt, n, name);
    !new && put_instead(rt, path, bytes, name)
}

// Does what can be taken back and may fail: a file in place is written over.
fn begin(rt: &HostRuntime, staged: &Staged, path: &[u8], bytes: &[u8], held: &[u8]) -> bool {
    match staged {
        Staged::Stream => true,
        Staged::Place(file, old) => write_over(rt, file, *old, path, bytes, held),
        Staged::Beside(_, _) => true,
    }
}

// Makes what is begun, and answers whether it is made.
fn complete(rt: &HostRuntime, staged: &Staged, path: &[u8], bytes: &[u8], name: &mut [u8]) -> bool {
    match staged {
        Staged::Stream => put_stream(rt, path, bytes),
        Staged::Place(file, old) => settle(rt, file, *old, path, bytes),
        Staged::Beside(n, new) => put_beside(rt, *n, *new, path, bytes, name),
    }
}

// Removes the file beside.
fn remove(rt: &HostRuntime, n: usize, name: &[u8]) {
    let m = within(n, name);
    unlink(rt, &name[..m]);
}

// Nothing is begun: what is there is as it was.
fn abandon(rt: &HostRuntime, staged: &Staged, bytes: &[u8], name: &[u8]) {
    match staged {
        Staged::Stream => {}
        Staged::Place(file, old) => give_back(file, *old, bytes),
        Staged::Beside(n, _) => remove(rt, *n, name),
    }
}

// What was begun is as it was.
fn take_back(rt: &HostRuntime, staged: &Staged, bytes: &[u8], held: &[u8]) {
    match staged {
        Staged::Stream => {}
        Staged::Place(file, old) => undo(file, *old, bytes, held),
        Staged::Beside(n, _) => remove(rt, *n, held),
    }
}

// Removes a file that was made, where none was before.
fn unmake(rt: &HostRuntime, staged: &Staged, path: &[u8]) {
    match staged {
        Staged::Stream => {}
        Staged::Place(_, _) => {}
        Staged::Beside(_, new) => {
            if *new {
                unlink(rt, path);
            }
        }
    }
}

// Which of two is made first: what may fail and cannot be taken back, then what is ready to the last byte, then what is
// only to be cut.
fn rank(staged: &Staged) -> u8 {
    match staged {
        Staged::Stream => 0,
        Staged::Beside(_, _) => 1,
        Staged::Place(_, _) => 2,
    }
}

// Makes a file of these bytes, and answers whether it is made.
pub fn save(rt: &HostRuntime, path: &[u8], bytes: &[u8]) -> bool {
    let mut name = [0u8; ROOM];
    let Some(staged) = stage(rt, path, bytes, &mut name) else {
        return false;
    };
    begin(rt, &staged, path, bytes, &name) && complete(rt, &staged, path, bytes, &mut name)
}

// Begins both of two files, or neither.
fn begin_both(
    rt: &HostRuntime,
    first: &Staged,
    one: &[u8],
    bytes: &[u8],
    name: &[u8],
    second: &Staged,
    two: &[u8],
    more: &[u8],
    name2: &[u8],
) -> bool {
    if !begin(rt, first, one, bytes, name) {
        abandon(rt, second, more, name2);
        return false;
    }
    if !begin(rt, second, two, more, name2) {
        take_back(rt, first, bytes, name);
        return false;
    }
    true
}

// Makes one of two files that are begun and then the other. Where the one cannot be made, the other is as it was; where
// the other cannot, the one goes again if it is new.
fn complete_both(
    rt: &HostRuntime,
    first: &Staged,
    one: &[u8],
    bytes: &[u8],
    name: &mut [u8],
    second: &Staged,
    two: &[u8],
    more: &[u8],
    name2: &mut [u8],
) {
    if !complete(rt, first, one, bytes, name) {
        take_back(rt, second, more, name2);
        return;
    }
    if !complete(rt, second, two, more, name2) {
        unmake(rt, first, one);
    }
}

// Makes two files, both ready before one is made: where one cannot be, the other is as it was. Answers whether they are
// two: names that lead to nothing may turn out to lead to one file.
pub fn save_both(rt: &HostRuntime, one: &[u8], bytes: &[u8], two: &[u8], more: &[u8]) -> bool {
    let mut name = [0u8; ROOM];
    let Some(first) = stage(rt, one, bytes, &mut name) else {
        return true;
    };
    let mut name2 = [0u8; ROOM];
    let Some(second) = stage(rt, two, more, &mut name2) else {
        abandon(rt, &first, bytes, &name);
        return true;
    };
    if one_file(rt, one, two) {
        abandon(rt, &first, bytes, &name);
        abandon(rt, &second, more, &name2);
        return false;
    }
    if !begin_both(rt, &first, one, bytes, &name, &second, two, more, &name2) {
        return true;
    }
    if rank(&second) < rank(&first) {
        complete_both(
            rt, &second, two, more, &mut name2, &first, one, bytes, &mut name,
        );
    } else {
        complete_both(
            rt, &first, one, bytes, &mut name, &second, two, more, &mut name2,
        );
    }
    true
}
