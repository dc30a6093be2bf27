//! The reports of a state: the mover's and the other player's, and what is kept of them.

use super::orders::Currents;
use super::states::State;
use circuit::Mesh;
use conn_store::Kind;
use edge_reach::{Limits, Question, Reach, Until};
use edge_tables::{EdgeEntry, FinderStop, Key, Tables};
use hex_cells::{Colour, Size};
use std::alloc::{AllocError, Global};

// How much the mover's report keeps. It ends at the first entry between his edges.
const MOVER_LIMITS: Limits = Limits {
    full: 6,
    semi: 12,
    edge_semi: 32,
    counts_lines: false,
};

// How much the other player's report keeps.
const OTHER_LIMITS: Limits = Limits {
    full: 12,
    semi: 28,
    edge_semi: 64,
    counts_lines: false,
};

/// Room for the reports of a state.
#[derive(Drop)]
pub(crate) struct Reporters {
    mover: Reach,
    other: Reach,
    mesh: Mesh,
}

impl Reporters {
    /// Room for reports on boards of this size.
    pub(crate) fn make(alloc: Global, size: Size) -> Result<Reporters, AllocError> {
        Ok(Reporters {
            mover: Reach::make(alloc, size, MOVER_LIMITS)?,
            other: Reach::make(alloc, size, OTHER_LIMITS)?,
            mesh: Mesh::make(alloc)?,
        })
    }

    /// Makes a player's report, and keeps his semi entries, and if the other is to move the full
    /// ones too: whether it shows that the player to move wins.
    pub(crate) fn report(
        &mut self,
        state: &State,
        player: Colour,
        tables: &mut Tables,
    ) -> Result<bool, FinderStop> {
        let question = Question {
            size: state.board.size(),
            player,
            stones: state.board.stones(player),
            region: state.board.empties(),
        };
        let key = |kind: Kind| state.key(player, kind);
        if player == state.mover {
            self.mover.report(&question, Until::FirstWin)?;
            if self.mover.between_edges(Kind::Semi).is_empty() {
                self.mover.go_on(Until::FirstWin)?;
            }
            keep(&mut self.mover, state, key(Kind::Semi), tables)?;
            return Ok(!self.mover.between_edges(Kind::Semi).is_empty());
        }
        self.other.report(&question, Until::Threats)?;
        keep(&mut self.other, state, key(Kind::Full), tables)?;
        keep(&mut self.other, state, key(Kind::Semi), tables)?;
        Ok(false)
    }

    /// The currents of both reports, the mover's first.
    pub(crate) fn currents(&mut self) -> (Currents, Currents) {
        let mover = self.mover.currents(&mut self.mesh);
        (mover, self.other.currents(&mut self.mesh))
    }
}

// Puts the entries of the key between the edges.
fn keep(reach: &mut Reach, state: &State, key: Key, tables: &mut Tables) -> Result<(), FinderStop> {
    for place in 0..reach.between_edges(key.kind).len() {
        if let Some(number) = reach.between_edges(key.kind).get(place).copied()
            && let Some(entry) = reach.entry(number).copied()
        {
            let lines = reach.derivation(number)?.len();
            let entry = EdgeEntry {
                carrier: entry.carrier,
                lines: u32::try_from(lines).unwrap_or(u32::MAX),
                report: Some(state.board.empties()),
            };
            tables.put(&key, &entry)?;
        }
    }
    Ok(())
}
