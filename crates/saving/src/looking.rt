// What stands at a path, and whether two names are of one file.
ghost use Rattle.console.specs.Files.{IsPrefixLen};

use console::path_of;
use std::fs;
use std::fs::Metadata;
use std::io::{Error, Result};
use std::os::unix::fs::MetadataExt;

// What stands at a path: nothing, a regular file, or anything else.
#[derive(Clone, Copy, Debug, PartialEq, Eq)]
pub enum Kind {
    Nothing,
    File,
    Other,
}

// The bits of a mode that say who may do what.
const RIGHTS: u32 = 0o7777;

// What stands at a path, links followed: its kind, who may do what with it, whose it is, and which one it is; or why
// nothing is seen there.
#[derive(Clone, Copy)]
pub struct Seen {
    pub kind: Kind,
    pub mode: u32,
    pub owner: u32,
    pub group: u32,
    pub device: u64,
    pub inode: u64,
    pub why: Option<Error>,
}

fn kind_of(held: &Metadata) -> Kind {
    if held.is_file() {
        Kind::File
    } else {
        Kind::Other
    }
}

// What the system says.
fn told(held: &Metadata) -> Seen {
    Seen {
        kind: kind_of(held),
        mode: held.mode() & RIGHTS,
        owner: held.uid(),
        group: held.gid(),
        device: held.dev(),
        inode: held.ino(),
        why: None,
    }
}

// Nothing is seen.
fn unseen(error: Error) -> Seen {
    Seen {
        kind: Kind::Nothing,
        mode: 0,
        owner: 0,
        group: 0,
        device: 0,
        inode: 0,
        why: Some(error),
    }
}

fn ask(rt: &HostRuntime, name: &[u8]) -> Result<Metadata> {
    let path = path_of(name)?;
    fs::metadata(rt, path)
}

// What stands at a path, links followed.
pub fn look(rt: &HostRuntime, name: &[u8]) -> Seen {
    match ask(rt, name) {
        Ok(held) => told(&held),
        Err(error) => unseen(error),
    }
}

// Whether a path is that of a symbolic link.
pub fn is_link(rt: &HostRuntime, name: &[u8]) -> bool {
    match path_of(name) {
        Ok(path) => match fs::symlink_metadata(rt, path) {
            Ok(held) => held.is_symlink(),
            Err(_) => false,
        },
        Err(_) => false,
    }
}

// How many bytes of a name are its folder's, the last `/` among them.
pub fn folder(name: &[u8]) -> usize
    ensures { IsPrefixLen result name.now }
{
    match name.iter().rposition(|b| *b == b'/') {
        Some(i) => i + 1,
        None => 0,
    }
}

// What the folder of a name is, the one that the program was started in where the name has none.
fn look_around(rt: &HostRuntime, name: &[u8]) -> Seen {
    let n = folder(name);
    if n == 0 {
        return look(rt, b".");
    }
    look(rt, &name[..n])
}

fn one(a: Seen, b: Seen) -> bool {
    a.device == b.device && a.inode == b.inode
}

// Whether two names of files that are not there are of one folder, and the same in it.
fn one_to_be(rt: &HostRuntime, a: &[u8], b: &[u8]) -> bool {
    let n = folder(a);
    let m = folder(b);
    a[n..] == b[m..] && one(look_around(rt, a), look_around(rt, b))
}

// Whether two names are of one file: the same name, the same file by two names, or by two names the same file to be
// made.
pub fn one_file(rt: &HostRuntime, a: &[u8], b: &[u8]) -> bool {
    if a == b {
        return true;
    }
    let x = look(rt, a);
    let y = look(rt, b);
    if x.kind != y.kind {
        return false;
    }
    if x.kind == Kind::Nothing {
        return one_to_be(rt, a, b);
    }
    one(x, y)
}
