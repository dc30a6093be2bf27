//! The shelf over the system's files: part of the trusted edge. It tells nothing of its files.

ghost use Rattle.std.specs.Prelude.{◌≡◌, None};

use super::limits::FILE_LIMIT;
use super::shelves::{Shelf, ShelfError};
use std::alloc::Global;
use std::fs::{self, File};
use std::io::{self, ErrorKind, Read};
use std::marker::Model;
use std::rt::HostRuntime;

/// The files of the system, by path: one that doesn't exist is missing. What is no regular file is
/// a counted fault, and so is any other failure to open or read: also a path that goes on behind a
/// file, and a name longer than the system's names are. Contracts see its count of faults.
#[derive(Drop)]
pub struct DirShelf<'a> {
    rt: &'a HostRuntime,
    faults: u64,
}

impl<'a> Model for DirShelf<'a> {
    ghost use Rattle.std.specs.Prelude.{ℕ};

    ghost Value = { ℕ };

    ghost view = { λ s. s.faults };
}

impl<'a> DirShelf<'a> {
    /// The files of the system, with no fault counted yet.
    pub fn new(rt: &'a HostRuntime) -> DirShelf<'a>
        ensures { result ≡ 0 }
    {
        DirShelf { rt, faults: 0 }
    }
}

impl<'a> Shelf for DirShelf<'a> {
    ghost told = { λ _. None };

    ghost faults = { λ s. s };

    fn fetch(&mut self, alloc: Global, name: &str) -> Result<Option<Vec<u8>>, ShelfError> {
        let file = read_file(self.rt, alloc, name);
        if let Err(ShelfError::Fault) = file {
            self.faults = self.faults.saturating_add(1);
        }
        file
    }
}

/// Reads the file of that path, no further than one byte past the limit.
///
/// It opens regular files alone: a pipe or a terminal could keep the call waiting for good, or lend
/// it the very commands that are to come.
fn read_file(rt: &HostRuntime, alloc: Global, path: &str) -> Result<Option<Vec<u8>>, ShelfError> {
    let file = match regular_file(rt, path) {
        Err(error) if error.kind() == ErrorKind::NotFound => return Ok(None),
        Err(_) | Ok(None) => return Err(ShelfError::Fault),
        Ok(Some(file)) => file,
    };
    let mut content = Vec::new(alloc);
    match file.take(FILE_LIMIT as u64 + 1).read_to_end(&mut content) {
        Err(error) if error.kind() == ErrorKind::OutOfMemory => Err(ShelfError::Memory),
        Err(_) => Err(ShelfError::Fault),
        Ok(_) if content.len() > FILE_LIMIT => Err(ShelfError::TooLong),
        Ok(_) => Ok(Some(content)),
    }
}

/// Opens the file of that path; `None` if it is there, and no regular file.
fn regular_file(rt: &HostRuntime, path: &str) -> io::Result<Option<File>> {
    if fs::metadata(rt, path)?.is_file() {
        Ok(Some(File::open(rt, path)?))
    } else {
        Ok(None)
    }
}
