//! The arguments of a program's process.

ghost use Rattle.std.specs.Prelude.{IfErr};
ghost use Rattle.hex_devices.specs.Statuses.{EndsWithoutArguments};

use crate::ends::End;
use crate::stops::Stop;
use hex_io::Word;
use std::rt::HostRuntime;

/// The arguments of the process, or how a program ends that can't have them: one of them is no
/// text, or memory ran out. What they are is the caller's affair, so no clause says it.
pub fn arguments_of(rt: &HostRuntime) -> Result<Vec<Word>, End>
    ensures ends { IfErr result EndsWithoutArguments }
{
    match Word::all(rt) {
        Ok(Some(words)) => Ok(words),
        Ok(None) => Err(End::Usage),
        Err(_) => Err(End::Stopped(Stop::Memory)),
    }
}
