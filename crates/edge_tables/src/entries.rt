//! An entry between a player's edges.

ghost use Rattle.std.specs.Prelude.{◌≡◌, OnOk, filter, not};
ghost use Rattle.edge_tables.specs.Entries.{is_inside, makes_needless};
ghost use Rattle.edge_tables.specs.Entries.{newest_beside, width};

use conn_store::Kind;
use hex_cells::{CellSet, Colour};
use std::alloc::AllocError;
use std::hash::{Hash, Hasher};

/// Of whom an entry speaks: the player, who of the two may move first, and the player's stones.
#[derive(Clone, Copy, Debug, PartialEq, Eq)]
pub struct Key {
    pub player: Colour,
    pub kind: Kind,
    pub stones: CellSet,
}

// The stones tell most keys apart, and a key that is equal has equal ones.
impl Hash for Key {
    ghost use Rattle.std.specs.Hash as fed;
    ghost use Rattle.std.specs.Cmp.Rules.{hashing};
    ghost use Rattle.std.proofs.Common.{rules};

    ghost hash_input = { λ key. fed.u128 key.stones };

    ghost respects_eq = { Prim.search (hashing, rules) };

    fn hash<H: Hasher>(&self, state: &mut H) {
        self.stones.bits().hash(state);
    }
}

/// An entry between a player's edges. It stands wherever he has the stones of its key and its
/// carrier is empty, whatever stones the opponent has.
#[derive(Clone, Copy, Debug, PartialEq, Eq)]
pub struct EdgeEntry {
    pub carrier: CellSet,
    /// About how many lines of a certificate show it.
    pub lines: u32,
    /// The region of the report that has it; `None` if it came by a stone, or by cases.
    pub report: Option<CellSet>,
}

impl EdgeEntry {
    /// How wide it is: by the cells of its carrier, and of as many cells by its lines.
    pub fn width(&self) -> u64
        ensures { result ≡ width self.now }
    {
        let lines = u64::from(self.lines);
        u64::from(self.carrier.count()) * (1 << u32::BITS) + lines
    }

    /// Whether its carrier lies inside the region.
    pub(crate) fn lies_inside(&self, region: CellSet) -> bool
        ensures { result ≡ is_inside region self.now }
    {
        self.carrier.inside(region)
    }

    /// Whether it makes the other needless: its carrier lies inside the other's, and it has at most
    /// twice as many lines, or if the carriers are equal at most as many.
    pub(crate) fn makes_needless(&self, other: &EdgeEntry) -> bool
        ensures { result ≡ makes_needless self.now other.now }
    {
        let lines = u64::from(self.lines);
        let others = u64::from(other.lines);
        if self.carrier == other.carrier {
            return lines <= others;
        }
        self.lies_inside(other.carrier) && lines <= 2 * others
    }
}

/// Adds an entry at the end, and takes away those that it makes needless. If memory runs out, those
/// may be gone and the entry not there.
pub(crate) fn add_last(list: &mut Vec<EdgeEntry>, entry: &EdgeEntry) -> Result<(), AllocError>
    ensures { OnOk result (list.new.items ≡ newest_beside entry.now list.old.items) }
{
    list.retain(|old| !entry.makes_needless(old));
    // (Field by field, since the prover gets no proof of a push of `*entry` here.)
    list.push(EdgeEntry {
        carrier: entry.carrier,
        lines: entry.lines,
        report: entry.report,
    })?;
    Ok(())
}
