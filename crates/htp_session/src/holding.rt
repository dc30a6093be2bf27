//! Gives what is held: the answers that were written and not given yet.

ghost use Rattle.std.specs.Prelude.{◌≡◌, ◌≤◌, length, [], OnErr, OnOk};
ghost use Rattle.hex_io.specs.Grew.{GaveProperPart};
ghost use Rattle.hex_devices.specs.Calls.{GivesAll};
ghost use Rattle.hex_devices.specs.Devices.{CountsOnly, shelf_and_archive};
ghost use Rattle.hex_devices.specs.declared.stops.Stop.{Stop};
ghost use Rattle.htp_session.specs.Calls.Holding.{Passes};

use hex_devices::{DeviceTypes, Devices, WriteFault};
use hex_io::MOST_HELD;

/// Gives all that is held. Nothing is held then.
pub fn give_held<D: DeviceTypes>(
    devices: &mut Devices<'_, '_, '_, '_, D>,
    held: &mut Vec<u8>,
) -> Result<(), WriteFault>
    ensures gives { GivesAll devices.old devices.new held.old.items result }
    ensures empty { OnOk result (held.new.items ≡ []) }
    ensures shelf_and_archive { shelf_and_archive devices.new ≡ shelf_and_archive devices.old }
    ensures counts { CountsOnly Stop.WriteFault devices.old devices.new result }
{
    devices.give(&*held)?;
    held.clear();
    Ok(())
}

/// Gives all that is held, if that is more than `MOST_HELD` bytes, and otherwise nothing.
pub fn relieve<D: DeviceTypes>(
    devices: &mut Devices<'_, '_, '_, '_, D>,
    held: &mut Vec<u8>,
) -> Result<(), WriteFault>
    ensures passes { OnOk result
        (Passes devices.old.link devices.new.link held.old.items [] held.new.items) }
    ensures part { OnErr result
        (GaveProperPart devices.old.link devices.new.link held.old.items) }
    ensures few { OnOk result (length held.new.items ≤ MOST_HELD) }
    ensures waits { length held.old.items ≤ MOST_HELD → held.new.items ≡ held.old.items }
    ensures shelf_and_archive { shelf_and_archive devices.new ≡ shelf_and_archive devices.old }
    ensures counts { CountsOnly Stop.WriteFault devices.old devices.new result }
{
    if held.len() <= MOST_HELD {
        return Ok(());
    }
    give_held(devices, held)
}
