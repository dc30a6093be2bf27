//! Archives: what takes the turns of a session.

ghost use Rattle.std.specs.Prelude.{◌≡◌, ℕ, List, None};
ghost use Rattle.std.specs.declared.option.Option.{Option};
ghost use Rattle.hex_io.specs.Causes.{HasCause};
ghost use Rattle.hex_plan.specs.Archived.{Archives};
ghost use Rattle.hex_plan.specs.Turns.{TurnData};

use super::refusals::ArchiveFault;
use super::turns::Turn;

/// What takes turns, with a count of its own faults.
///
/// An archive may tell the turns that it took (`told`), the first one first. Its count of faults is
/// known of every archive; it stands still at the greatest value of a `u64`.
pub trait Archive {
    ghost told: { Self → Option (List TurnData) };

    ghost faults: { Self → ℕ };

    /// Adds the turn at the end, or counts a fault and changes no turn. It takes no memory.
    fn take(&mut self, turn: Turn) -> Result<(), ArchiveFault>
        ensures told { Archives (told self.old) (told self.new) result turn }
        ensures cause { HasCause (faults self.old) (faults self.new) result };
}

/// An archive that drops each turn. It never fails, and tells nothing.
#[derive(Debug, Clone, Copy, PartialEq, Eq, Drop)]
pub struct NoArchive;

impl Archive for NoArchive {
    ghost told = { λ _. None };

    ghost faults = { λ _. 0 };

    fn take(&mut self, turn: Turn) -> Result<(), ArchiveFault>
        ensures told { Archives None None result turn }
        ensures cause { HasCause 0 0 result }
        ensures never { result ≡ Ok tt }
    {
        let _dropped = turn;
        Ok(())
    }
}
