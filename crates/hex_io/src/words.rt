//! A word of a command line, and all words of the process's own.

ghost use Rattle.std.specs.Prelude.{◌≡◌, string_bytes};

use super::refusals::Memory;
use std::alloc::Global;
use std::convert::AsStr;
use std::marker::Model;
use std::rt::HostRuntime;
use std::{env, io};

/// One word of a command line, which contracts see as the list of its bytes.
#[derive(Debug, Drop)]
pub struct Word {
    text: String,
}

impl Model for Word {
    ghost use Rattle.std.specs.Prelude.{ℕ, List, string_bytes};

    ghost Value = { List ℕ };

    ghost view = { λ w. string_bytes w.text };
}

impl Word {
    /// The word of this text. It takes no memory.
    pub fn of(text: String) -> Word
        ensures { result ≡ string_bytes text }
    {
        Word { text }
    }

    /// The arguments of the process, in order; none if one of them is no text. What they
    /// are is the caller's affair, so no clause says it.
    pub fn all(rt: &HostRuntime) -> Result<Option<Vec<Word>>, Memory> {
        let arguments = match env::args(rt) {
            Err(error) if error.kind() == io::ErrorKind::OutOfMemory => return Err(Memory),
            Err(_) => return Ok(None),
            Ok(arguments) => arguments,
        };
        let words = arguments.skip(1).map(Word::of).collect(rt.alloc())?;
        Ok(Some(words))
    }

    /// Lends the text.
    pub fn as_str(&self) -> &str
        ensures { result.now ≡ self.now }
    {
        self.text.as_str()
    }
}

impl AsStr for Word {
    ghost text = { λ w. w };

    fn as_str(&self) -> &str {
        self.text.as_str()
    }
}
