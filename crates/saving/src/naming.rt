// Files opened, renamed and removed by name.
use console::path_of;
use std::fs;
use std::fs::{File, OpenOptions};
use std::io::Result;

// Opens a file by its name.
pub fn open(rt: &HostRuntime, how: &OpenOptions, name: &[u8]) -> Result<File> {
    let path = path_of(name)?;
    how.open(rt, path)
}

// To be written from the start, made where it is not there, and cut to nothing.
pub fn open_overwrite(rt: &HostRuntime, name: &[u8]) -> Result<File> {
    let mut how = OpenOptions::new();
    how.write(true);
    how.create(true);
    how.truncate(true);
    open(rt, &how, name)
}

// To be read and written as it is.
pub fn open_update(rt: &HostRuntime, name: &[u8]) -> Result<File> {
    let mut how = OpenOptions::new();
    how.read(true);
    how.write(true);
    open(rt, &how, name)
}

// To be written at its end.
pub fn open_append(rt: &HostRuntime, name: &[u8]) -> Result<File> {
    let mut how = OpenOptions::new();
    how.append(true);
    open(rt, &how, name)
}

pub fn rename(rt: &HostRuntime, from: &[u8], to: &[u8]) -> Result<()> {
    let old = path_of(from)?;
    let new = path_of(to)?;
    fs::rename(rt, old, new)
}

pub fn unlink(rt: &HostRuntime, name: &[u8]) {
    if let Ok(path) = path_of(name) {
        let _ = fs::remove_file(rt, path);
    }
}
