//! The devices of a run: a link, a shelf and an archive, a runtime and a gate.

ghost use Rattle.std.specs.Prelude.{◌≡◌, ◌<◌, ◌≤◌, length, IfOk};
ghost use Rattle.hex_io.specs.Told.{ReadsBytes};
ghost use Rattle.hex_devices.specs.Devices.{CountsOnly, shelf_and_archive};
ghost use Rattle.hex_devices.specs.Calls.{GivesAll};
ghost use Rattle.hex_devices.specs.declared.stops.Stop.{Stop};

use crate::faults::{ReadFault, WriteFault};
use crate::giving::give_text;
use crate::inputs::read_some;
use hex_io::{Link, Shelf};
use hex_plan::Archive;
use search_team::Gate;
use std::marker::Model;
use std::thread::Threads;

/// The types of the devices of a run.
pub trait DeviceTypes {
    /// Requests come from it, and answers go to it.
    type Link: Link;
    /// It has the files that are fetched.
    type Shelf: Shelf;
    /// It takes the searched turns.
    type Archive: Archive;
    /// Searches run in its threads.
    type Runtime: Threads + Sync;
    /// The workers of a search pass it.
    type Gate: Gate + Sync;
}

impl<L: Link, F: Shelf, A: Archive, R: Threads + Sync, G: Gate + Sync> DeviceTypes
    for (L, F, A, R, G) {
    type Link = L;

    type Shelf = F;

    type Archive = A;

    type Runtime = R;

    type Gate = G;
}

/// What a run is made over.
///
/// Contracts see what the first three tell, if they do, and their counts of faults. No clause
/// depends on the runtime or the gate.
#[derive(Drop)]
pub struct Devices<'a, 'b, 'c, 'd, D: DeviceTypes> {
    pub link: &'a mut D::Link,
    pub shelf: &'b mut D::Shelf,
    pub archive: &'c mut D::Archive,
    pub rt: &'d D::Runtime,
    pub gate: &'d D::Gate,
}

impl<'a, 'b, 'c, 'd, D: DeviceTypes> Model for Devices<'a, 'b, 'c, 'd, D> {
    ghost use Rattle.hex_devices.specs.Devices.{DevicesState};

    ghost Value = { DevicesState };

    ghost view = { λ d. record {
      link = D.Link.told d.link.now;
      read_faults = D.Link.read_faults d.link.now;
      write_faults = D.Link.write_faults d.link.now;
      shelf = D.Shelf.told d.shelf.now;
      fetch_faults = D.Shelf.faults d.shelf.now;
      turns = D.Archive.told d.archive.now;
      archive_faults = D.Archive.faults d.archive.now;
      names = (d.link.ghost_name, d.shelf.ghost_name, d.archive.ghost_name);
    } };
}

impl<D: DeviceTypes> Devices<'_, '_, '_, '_, D> {
    /// Reads at most `room` bytes to the front of the buffer. At a fault no byte was taken.
    pub fn read(&mut self, buffer: &mut [u8], room: usize) -> Result<usize, ReadFault>
        requires some { 0 < room }
        requires fits { room ≤ length buffer.old }
        ensures bound { IfOk result (λ n. n ≤ room) }
        ensures reads { ReadsBytes self.old.link self.new.link result buffer.new }
        ensures shelf_and_archive { shelf_and_archive self.new ≡ shelf_and_archive self.old }
        ensures counts { CountsOnly Stop.ReadFault self.old self.new result }
    {
        match read_some(&mut *self.link, buffer, room) {
            Err(_) => Err(ReadFault),
            Ok(count) => Ok(count),
        }
    }

    /// Gives all of the bytes. At a fault a prefix of them was given that is not all of them.
    pub fn give(&mut self, bytes: &[u8]) -> Result<(), WriteFault>
        ensures gives { GivesAll self.old self.new bytes.now result }
        ensures shelf_and_archive { shelf_and_archive self.new ≡ shelf_and_archive self.old }
        ensures counts { CountsOnly Stop.WriteFault self.old self.new result }
    {
        give_text(&mut *self.link, bytes)
    }
}
