//! The archive that writes the traces of its turns.

ghost use Rattle.std.specs.Prelude.{◌≡◌, OnOk, OnErr, IfOk, None};
ghost use Rattle.hex_io.specs.Causes.{HasCause};
ghost use Rattle.hex_io.specs.Grew.{Gave, GaveProperPart};
ghost use Rattle.hex_plan.specs.Archived.{Archives};
ghost use Rattle.trace_audit.specs.Traces.{trace_of};

use super::refusals::Memory;
use super::texts::{BUFFER_BYTES, give_text};
use hex_io::Link;
use hex_plan::{Archive, ArchiveFault, Turn};
use std::alloc::Global;
use std::marker::Model;

/// An archive over a link, to which it writes the trace of each turn. It tells no turns, and its
/// faults are the link's of its writes.
#[derive(Drop)]
pub struct TraceArchive<W: Link> {
    link: W,
    buffer: Vec<u8>,
}

impl<W: Link> Model for TraceArchive<W> {
    ghost use Rattle.std.specs.Prelude.{◌≤◌, vec_capacity};
    ghost use Rattle.trace_audit.specs.declared.texts.TheConstants.{BUFFER_BYTES};

    ghost Value = { W };

    ghost view = { λ a. a.link };

    ghost invariant = { λ a. BUFFER_BYTES ≤ vec_capacity a.buffer };
}

impl<W: Link> TraceArchive<W> {
    /// An archive that writes to this link.
    pub fn make(alloc: Global, out: W) -> Result<TraceArchive<W>, Memory>
    where
        W: Drop,
        ensures { IfOk result (λ archive. archive ≡ out) }
    {
        let buffer = Vec::with_capacity(alloc, BUFFER_BYTES)?;
        Ok(TraceArchive { link: out, buffer })
    }

    /// The link, with what it was given.
    pub fn into_link(self) -> W
        ensures { result ≡ self }
    {
        let TraceArchive { link, buffer: _ } = self;
        link
    }

    // Gives the link the trace of the turn.
    fn give(&mut self, turn: &Turn) -> Result<(), ArchiveFault>
        ensures cause { HasCause (W.write_faults self.old) (W.write_faults self.new) result }
        ensures all { OnOk result (Gave (W.told self.old) (W.told self.new) (trace_of turn.now)) }
        ensures proper { OnErr result
            (GaveProperPart (W.told self.old) (W.told self.new) (trace_of turn.now)) }
        ensures reads { W.read_faults self.new ≡ W.read_faults self.old }
    {
        let Some(closed) = turn.closed() else {
            return Ok(());
        };
        match give_text(&mut self.link, &mut self.buffer, closed) {
            Ok(()) => Ok(()),
            Err(_) => Err(ArchiveFault),
        }
    }
}

impl<W: Link> Archive for TraceArchive<W> {
    ghost told = { λ _. None };

    ghost faults = { λ a. W.write_faults a };

    fn take(&mut self, turn: Turn) -> Result<(), ArchiveFault>
        ensures told { Archives None None result turn }
        ensures cause { HasCause (W.write_faults self.old) (W.write_faults self.new) result }
        ensures all { OnOk result (Gave (W.told self.old) (W.told self.new) (trace_of turn)) }
        ensures proper { OnErr result
            (GaveProperPart (W.told self.old) (W.told self.new) (trace_of turn)) }
        ensures reads { W.read_faults self.new ≡ W.read_faults self.old }
    {
        self.give(&turn)
    }
}
