//! A conversation from its first byte to its end.

ghost use Rattle.tree_words.specs.Settings.{AreInRange};
ghost use Rattle.hex_devices.specs.Devices.{CountsFaults};
ghost use Rattle.htp_session.specs.Calls.Conversation.{Converses};

use crate::session::Session;
use hex_cells::Size;
use hex_devices::{DeviceTypes, Devices, PIECE, Stop};
use hex_engine::Options;
use std::alloc::Global;

/// Answers what the link has, up to `limit` bytes. All whole lines are answered before the next
/// read, also before the one byte after the limit is asked for. What fails first ends it: nothing
/// is read, written or submitted after a fault.
///
/// The knobs of the options are in their ranges. It refuses nothing else.
pub fn converse<D: DeviceTypes>(
    alloc: Global,
    devices: &mut Devices<'_, '_, '_, '_, D>,
    options: &Options,
    size: Size,
    limit: usize,
) -> Result<(), Stop>
    requires { AreInRange options.now.knobs }
    ensures converses { Converses options.now size limit devices.old devices.new result }
    ensures counts { CountsFaults devices.old devices.new result }
{
    let Ok(mut session) = Session::make(alloc, options, size) else {
        return Err(Stop::Memory);
    };
    let mut buffer = [0u8; PIECE];
    let mut total = 0;
    'pieces: loop {
        let room = buffer.len().min((limit - total).max(1));
        let count = devices.read(&mut buffer, room)?;
        if count == 0 {
            return Ok(session.finish(alloc, devices)?);
        }
        if total == limit {
            return Err(Stop::TooLong);
        }
        if session.feed(alloc, devices, &buffer[..count])? {
            return Ok(());
        }
        total += count;
    }
}
