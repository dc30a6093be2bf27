//! The link over a file that is written: part of the trusted edge. It tells nothing of its bytes.

ghost use Rattle.std.specs.Prelude.{◌≡◌, ◌≤◌, length, IfOk, None};
ghost use Rattle.hex_io.specs.Told.{ReadsBytes};
ghost use Rattle.hex_io.specs.Causes.{HasCause};

use super::links::Link;
use super::refusals::LinkFault;
use super::standard::write_once;
use super::words::Word;
use std::fs::File;
use std::marker::Model;
use std::rt::HostRuntime;

/// One file that is written from its start. Nothing is to come: a read answers 0.
///
/// The file is made at the first write, or the one that stands there is emptied, so a link that
/// nobody writes to touches no file. A file that could not be made is a counted fault at the first
/// write and at each one after it. Contracts see the count of these faults.
#[derive(Drop)]
pub struct FileLink<'a> {
    rt: &'a HostRuntime,
    target: Target,
    write_faults: u64,
}

/// What a link writes to.
#[derive(Drop)]
enum Target {
    /// The file of this path, which is not made yet.
    Path(Word),
    /// The file that was made.
    Made(File),
    /// Nothing: the file could not be made.
    Refused,
}

impl<'a> Model for FileLink<'a> {
    ghost use Rattle.std.specs.Prelude.{ℕ};

    ghost Value = { ℕ };

    ghost view = { λ s. s.write_faults };
}

impl<'a> FileLink<'a> {
    /// A link that writes the file of that path, with no fault counted yet. It touches no file.
    pub fn new(rt: &'a HostRuntime, path: Word) -> FileLink<'a>
        ensures { result ≡ 0 }
    {
        FileLink {
            rt,
            target: Target::Path(path),
            write_faults: 0,
        }
    }
}

impl<'a> Link for FileLink<'a> {
    ghost told = { λ _. None };

    ghost read_faults = { λ _. 0 };

    ghost write_faults = { λ s. s };

    fn read(&mut self, buf: &mut [u8]) -> Result<usize, LinkFault>
        ensures bound { IfOk result (λ n. n ≤ length buf.new) }
        ensures told { ReadsBytes None None result buf.new }
        ensures cause { HasCause 0 0 result }
        ensures writes { self.new ≡ self.old }
        ensures nothing { result ≡ Ok 0 }
    {
        Ok(0)
    }

    fn write(&mut self, bytes: &[u8]) -> Result<usize, LinkFault> {
        make(self.rt, &mut self.target);
        match &mut self.target {
            Target::Made(file) => write_once(file, &mut self.write_faults, bytes),
            _ => {
                self.write_faults = self.write_faults.saturating_add(1);
                Err(LinkFault)
            }
        }
    }
}

/// Makes the file that is not made yet.
fn make(rt: &HostRuntime, target: &mut Target) {
    if let Target::Path(path) = target {
        *target = match File::create(rt, path.as_str()) {
            Ok(file) => Target::Made(file),
            Err(_) => Target::Refused,
        };
    }
}
