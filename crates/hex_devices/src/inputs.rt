//! Takes the input of a link: some of it, or all up to a limit.

ghost use Rattle.std.specs.Prelude.{◌≡◌, ◌<◌, ◌≤◌, length, IfOk, Err};
ghost use Rattle.hex_io.specs.Told.{ReadsBytes};
ghost use Rattle.hex_io.specs.Causes.{CountsFault, HasCause};
ghost use Rattle.hex_devices.specs.Inputs.{TakesAll};

use crate::errors::InputError;
use hex_io::{Link, LinkFault};
use std::alloc::Global;

/// The most bytes of one read.
pub const PIECE: usize = 16_384;

/// Reads at most `room` bytes to the front of the buffer.
pub fn read_some<L: Link>(link: &mut L, buffer: &mut [u8], room: usize) -> Result<usize, LinkFault>
    requires some { 0 < room }
    requires fits { room ≤ length buffer.old }
    ensures bound { IfOk result (λ n. n ≤ room) }
    ensures told { ReadsBytes (L.told link.old) (L.told link.new) result buffer.new }
    ensures cause { HasCause (L.read_faults link.old) (L.read_faults link.new) result }
    ensures writes { L.write_faults link.new ≡ L.write_faults link.old }
{
    link.read(&mut buffer[..room])
}

/// Takes all that is to come, if it has at most `limit` bytes. One byte more ends it, as does the
/// first fault; nothing is read after either.
///
/// `Read` comes only if the stream counted a fault, `TooLong` exactly if `limit + 1` bytes were
/// taken. It refuses otherwise only if memory runs out.
pub fn take_all<L: Link>(alloc: Global, link: &mut L, limit: usize) -> Result<Vec<u8>, InputError>
    ensures takes { TakesAll (L.told link.old) (L.told link.new) limit result }
    ensures read_fault { CountsFault (L.read_faults link.old) (L.read_faults link.new)
        (result ≡ Err InputError.Read) }
    ensures writes { L.write_faults link.new ≡ L.write_faults link.old }
{
    let mut input = Vec::new(alloc);
    let mut buffer = [0u8; PIECE];
    'pieces: loop {
        let room = buffer.len().min((limit - input.len()).max(1));
        let count = match read_some(link, &mut buffer, room) {
            Err(_) => return Err(InputError::Read),
            Ok(count) => count,
        };
        if count == 0 {
            return Ok(input);
        }
        if input.len() == limit {
            return Err(InputError::TooLong);
        }
        input.extend_from_slice(&buffer[..count])?;
    }
}
