//! The shelf: where a session fetches files from.

ghost use Rattle.std.specs.Prelude.{◌≡◌, ℕ};
ghost use Rattle.std.specs.declared.option.Option.{Option};
ghost use Rattle.hex_io.specs.Causes.{CountsFault};
ghost use Rattle.hex_io.specs.Shelves.{Shelved, Fetches, says};

use std::alloc::{AllocError, Global};
use thiserror::Error;

/// Why a file was not fetched.
#[derive(Clone, Copy, Debug, PartialEq, Eq, Drop, Error)]
pub enum ShelfError {
    /// The shelf counted a fault.
    #[error("the shelf is at fault")]
    Fault,
    /// The file has more than [`FILE_LIMIT`](crate::FILE_LIMIT) bytes.
    #[error("the file is too long")]
    TooLong,
    /// Memory ran out.
    #[error("out of memory")]
    Memory,
}

impl From<AllocError> for ShelfError {
    ghost use Rattle.hex_io.specs.declared.shelves.ShelfError.{ShelfError};

    ghost from_gives = { λ _ error. error ≡ ShelfError.Memory };

    fn from(_refused: AllocError) -> ShelfError {
        ShelfError::Memory
    }
}

/// What files are fetched from, by name, with a count of its own faults.
///
/// A shelf may tell what it holds (`told`): its files, and for each fetch so far that did not run
/// out of memory whether it was at fault. Its count of faults is known of every shelf, and stands
/// still at the greatest value of a `u64`.
pub trait Shelf {
    ghost told: { Self → Option Shelved };

    ghost faults: { Self → ℕ };

    /// Fetches the bytes of the file of that name; `None` if no file has it. The files stay as they
    /// are.
    ///
    /// A file of more than [`FILE_LIMIT`](crate::FILE_LIMIT) bytes is `TooLong`. `Fault` comes only
    /// if the count of faults rose, and with every other answer the count is as before. If memory
    /// ran out nothing changed.
    fn fetch(&mut self, alloc: Global, name: &str) -> Result<Option<Vec<u8>>, ShelfError>
        ensures told { Fetches (told self.old) (told self.new) name.now
            (says (λ file. file.items) result) }
        ensures cause { CountsFault (faults self.old) (faults self.new)
            (result ≡ Err ShelfError.Fault) };
}
