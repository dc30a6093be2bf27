//! Why a call gives up.

ghost use Rattle.std.specs.Prelude.{◌≡◌};

use std::alloc::{AllocError, AllocFailed};

/// Why a call gave up.
#[derive(Clone, Copy, Debug, PartialEq, Eq)]
pub enum FinderStop {
    /// A table is full.
    Full,
    /// A search found no way on.
    NoWay,
    /// Memory ran out.
    Memory,
}

impl From<AllocError> for FinderStop {
    ghost use Rattle.edge_tables.specs.declared.stops.FinderStop.{FinderStop};

    ghost from_gives = { λ _ stop. stop ≡ FinderStop.Memory };

    fn from(_refused: AllocError) -> FinderStop {
        FinderStop::Memory
    }
}

impl<T: Drop> From<AllocFailed<T>> for FinderStop {
    ghost use Rattle.edge_tables.specs.declared.stops.FinderStop.{FinderStop};

    ghost from_gives = { λ _ stop. stop ≡ FinderStop.Memory };

    fn from(_refused: AllocFailed<T>) -> FinderStop {
        FinderStop::Memory
    }
}
