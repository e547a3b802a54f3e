//! A file is written beside the named one, under a name that no `Name` is, and then renamed.

use crate::transfer::write_whole;
use std::fs::{File, OpenFile};
use std::io::ErrorKind;
use std::rt::Files;
use std::{fs, io};

/// Names of the new file for a program that holds the folder's lock. What stands there was left by
/// a program that was stopped. More than one, since a file of another user may be there for good.
pub const LOCKED: [&str; 4] = [
    ".looper-new",
    ".looper-new-2",
    ".looper-new-3",
    ".looper-new-4",
];

/// Names of the new file where the folder can't be locked. Any file that stands there may be
/// another program's, and is left alone.
pub const UNLOCKED: [&str; 8] = [
    ".looper-own",
    ".looper-own-2",
    ".looper-own-3",
    ".looper-own-4",
    ".looper-own-5",
    ".looper-own-6",
    ".looper-own-7",
    ".looper-own-8",
];

/// The working directory with its lock, which is held until this is dropped. It waits for another
/// program that holds it. None where the directory or its file system has no lock to give.
fn locked_folder<R: Files<File = File>>(rt: &R) -> Option<File> {
    let folder = fs::open(rt, ".").ok()?;
    folder.lock().ok()?;
    Some(folder)
}

/// Makes a new file under the first of these names that no file has.
fn create_free<R: Files>(rt: &R, names: &[&'static str]) -> io::Result<(R::File, &'static str)> {
    for name in names {
        match File::create_new(rt, name) {
            Ok(file) => return Ok((file, name)),
            Err(e) if e.kind() == ErrorKind::AlreadyExists => {}
            Err(e) => return Err(e),
        }
    }
    Err(io::Error::from(ErrorKind::AlreadyExists))
}

/// Waits until the disk has all of a file. Where the file system has no such call there is nothing
/// to wait for.
fn sync<F: OpenFile>(file: &F) -> io::Result<()> {
    match file.sync_all() {
        Err(e) if matches!(e.kind(), ErrorKind::InvalidInput | ErrorKind::Unsupported) => Ok(()),
        done => done,
    }
}

/// Writes a new file under one of these names and gives it the name, or leaves no rest of it.
fn put_by<R: Files>(rt: &R, names: &[&'static str], name: &str, bytes: &[u8]) -> io::Result<()> {
    let (mut file, new) = create_free(rt, names)?;
    let put = match write_whole(&mut file, bytes) {
        Ok(()) => sync(&file).and_then(|()| fs::rename(rt, new, name)),
        Err(e) => Err(e),
    };
    if put.is_err() {
        let _ = fs::remove_file(rt, new);
    }
    put
}

/// Puts a whole file in the place of the named one, or leaves that as it was.
pub fn put_in_place<R: Files<File = File>>(rt: &R, name: &str, bytes: &[u8]) -> io::Result<()> {
    let Some(folder) = locked_folder(rt) else {
        return put_by(rt, &UNLOCKED, name, bytes);
    };
    for left in LOCKED {
        let _ = fs::remove_file(rt, left);
    }
    let put = put_by(rt, &LOCKED, name, bytes);
    drop(folder);
    put
}
