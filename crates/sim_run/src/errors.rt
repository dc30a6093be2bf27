//! Why a schedule was not simulated.

use thiserror::Error;
use tree_words::Memory;

/// Why a schedule was not simulated.
#[derive(Clone, Copy, Debug, PartialEq, Eq, Drop, Error)]
pub enum SimError {
    /// Memory ran out.
    #[error("out of memory")]
    Memory,
    /// `at` is the first place of the schedule, counted from 0, whose number no worker has.
    #[error("entry {at} of the schedule names no worker")]
    NoSuchWalker { at: usize },
}

impl From<Memory> for SimError {
    ghost use Rattle.std.specs.Prelude.{◌≡◌};
    ghost use Rattle.sim_run.specs.declared.errors.SimError.{SimError};

    ghost from_gives = { λ _ error. error ≡ SimError.Memory };

    fn from(_refused: Memory) -> SimError {
        SimError::Memory
    }
}
