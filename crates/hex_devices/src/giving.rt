//! Gives a text to a link, and tells a fault as one of a write.

ghost use Rattle.std.specs.Prelude.{◌≡◌, OnErr, OnOk};
ghost use Rattle.hex_io.specs.Causes.{HasCause};
ghost use Rattle.hex_io.specs.Grew.{Gave, GaveProperPart};

use crate::faults::WriteFault;
use hex_io::{Link, give};

/// Gives all of the text. At a fault a prefix of it was given that is not all of it.
pub fn give_text<L: Link>(link: &mut L, text: &[u8]) -> Result<(), WriteFault>
    ensures all { OnOk result (Gave (L.told link.old) (L.told link.new) text.now) }
    ensures proper { OnErr result
        (GaveProperPart (L.told link.old) (L.told link.new) text.now) }
    ensures cause { HasCause (L.write_faults link.old) (L.write_faults link.new) result }
    ensures reads { L.read_faults link.new ≡ L.read_faults link.old }
{
    match give(link, text) {
        Err(_) => Err(WriteFault),
        Ok(()) => Ok(()),
    }
}
