//! A shelf in memory, which is at fault when it is told to be.

ghost use Rattle.std.specs.Prelude.{◌≡◌, ◌≢◌, IfOk, IsTrue, ◌↔◌, Some};
ghost use Rattle.std.specs.Prelude.{option_map};
ghost use Rattle.std.specs.List.{find};
ghost use Rattle.std.specs.Str.{bytes_eq};
ghost use Rattle.hex_io.specs.Shelves.{content_of, found, Fetches, says};
ghost use Rattle.hex_io.specs.Causes.{CountsFault};
ghost use Rattle.hex_io.specs.MemShelves.{NextIsBad, after_fetch, new_shelf};

use super::files::File;
use super::in_memory::is_among;
use super::limits::FILE_LIMIT;
use super::refusals::Memory;
use super::shelves::{Shelf, ShelfError};
use std::alloc::Global;
use std::marker::Model;

/// A shelf in memory: it tells its files and its tries. A fetch is at fault exactly if its number,
/// from 0, is among those that were named; one that ran out of memory takes no number.
#[derive(Drop)]
pub struct MemShelf {
    files: Vec<File>,
    bad: Vec<u32>,
    tries: Vec<bool>,
    faults: u64,
}

impl Model for MemShelf {
    ghost use Rattle.hex_io.specs.MemShelves.{MemShelfData};

    ghost Value = { MemShelfData };

    ghost view = { λ s. record {
      told = record { files = s.files.items; tries = s.tries.items };
      bad = s.bad.items;
      faults = s.faults;
    } };
}

impl Shelf for MemShelf {
    ghost use Rattle.std.specs.Prelude.{Some};

    ghost told = { λ s. Some s.told };

    ghost faults = { λ s. s.faults };

    fn fetch(&mut self, alloc: Global, name: &str) -> Result<Option<Vec<u8>>, ShelfError>
        ensures told { Fetches (Some self.old.told) (Some self.new.told) name.now
            (says (λ file. file.items) result) }
        ensures cause { CountsFault self.old.faults self.new.faults
            (result ≡ Err ShelfError.Fault) }
        ensures fails { result ≢ Err ShelfError.Memory → (result ≡ Err ShelfError.Fault)
            ↔ NextIsBad self.old }
        ensures rest { self.new
            ≡ after_fetch self.old self.new.told (says (λ file. file.items) result) }
    {
        if self.is_next_bad() {
            let Ok(()) = self.tries.push(true) else {
                return Err(ShelfError::Memory);
            };
            self.faults = self.faults.saturating_add(1);
            return Err(ShelfError::Fault);
        }
        let file = self.look_up(alloc, name);
        if let Err(ShelfError::Memory) = file {
            return file;
        }
        let Ok(()) = self.tries.push(false) else {
            return Err(ShelfError::Memory);
        };
        file
    }
}

impl MemShelf {
    /// A file store of these files, the first of a name counting. The fetches whose numbers stand
    /// in `bad` fail.
    pub fn make(alloc: Global, files: Vec<File>, bad: Vec<u32>) -> Result<MemShelf, Memory>
        ensures { IfOk result (λ shelf. shelf ≡ new_shelf files.items bad.items) }
    {
        Ok(MemShelf {
            files,
            bad,
            tries: Vec::new(alloc),
            faults: 0,
        })
    }

    fn is_next_bad(&self) -> bool
        ensures { IsTrue result ↔ NextIsBad self.now }
    {
        is_among(&self.bad, self.tries.len())
    }

    /// What the file of that name holds.
    fn look_up(&self, alloc: Global, name: &str) -> Result<Option<Vec<u8>>, ShelfError>
        ensures { result ≢ Err ShelfError.Memory
            → says (λ file. file.items) result ≡ Some
            (found (content_of self.now.told.files name.now)) }
    {
        let Some(file) = named(&self.files, name.as_bytes()) else {
            return Ok(None);
        };
        let content = file.content.as_slice();
        if content.len() > FILE_LIMIT {
            return Err(ShelfError::TooLong);
        }
        Ok(Some(content.to_vec(alloc)?))
    }
}

/// The first file of that name.
fn named<'a>(files: &'a [File], name: &[u8]) -> Option<&'a File>
    ensures { option_map (λ file. file.now) result ≡ find
        (λ file. bytes_eq file.name name.now) files.now }
{
    files.iter().find(|file| file.name.as_slice() == name)
}
