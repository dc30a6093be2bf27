//! An archive in memory.

ghost use Rattle.std.specs.Prelude.{◌≡◌, ◌≤◌, length, IfOk, IsErr, ◌↔◌, [], Some};
ghost use Rattle.hex_io.specs.Causes.{HasCause};
ghost use Rattle.hex_io.specs.Mem.{counted};
ghost use Rattle.hex_plan.specs.Archived.{Archives};

use super::archives::Archive;
use super::refusals::{ArchiveFault, Memory};
use super::turns::Turn;
use std::alloc::Global;
use std::marker::Model;

/// An archive in memory. It tells all its turns, and is at fault exactly if it is full.
#[derive(Drop)]
pub struct MemArchive {
    turns: Vec<Turn>,
    room: usize,
    faults: u64,
}

impl Model for MemArchive {
    ghost use Rattle.std.specs.Prelude.{◌≤◌, vec_len, vec_capacity};
    ghost use Rattle.hex_plan.specs.Archived.{ArchiveState};

    ghost Value = { ArchiveState };

    ghost view = { λ s. record { turns = s.turns.items; room = s.room; faults = s.faults } };

    ghost invariant = { λ s. (s.room ≤ vec_capacity s.turns) × (vec_len s.turns ≤ s.room) };
}

impl MemArchive {
    /// An archive that has room for so many turns, and has none yet.
    pub fn make(alloc: Global, room: usize) -> Result<MemArchive, Memory>
        ensures { IfOk result
            (λ archive. archive ≡ record { turns = []; room = room; faults = 0 }) }
    {
        let turns = Vec::with_capacity(alloc, room)?;
        Ok(MemArchive {
            turns,
            room,
            faults: 0,
        })
    }

    /// Lends the turns that were taken, the first one first.
    pub fn turns(&self) -> &[Turn]
        ensures { result.now ≡ self.now.turns }
    {
        self.turns.as_slice()
    }
}

impl Archive for MemArchive {
    ghost told = { λ s. Some s.turns };

    ghost faults = { λ s. s.faults };

    fn take(&mut self, turn: Turn) -> Result<(), ArchiveFault>
        ensures told { Archives (Some self.old.turns) (Some self.new.turns) result turn }
        ensures cause { HasCause self.old.faults self.new.faults result }
        ensures full { IsErr result ↔ (self.old.room ≤ length self.old.turns) }
        ensures rest { self.new
            ≡ record self.old { turns = self.new.turns; faults = counted self.old.faults result } }
    {
        if self.turns.len() >= self.room {
            self.faults = self.faults.saturating_add(1);
            return Err(ArchiveFault);
        }
        self.turns.push(turn).unwrap();
        Ok(())
    }
}
