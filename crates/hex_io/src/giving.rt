//! Gives all of some bytes to a link, and a line of failure whatever comes of it.

ghost use Rattle.std.specs.Prelude.{◌≡◌, OnOk, OnErr};
ghost use Rattle.hex_io.specs.Causes.{HasCause};
ghost use Rattle.hex_io.specs.Grew.{Gave, GaveProperPart};
ghost use Rattle.hex_io.specs.Reported.{Reported};

use super::links::Link;
use super::refusals::LinkFault;

/// Gives all of the bytes. At a fault a prefix of them was given that is not all of them, and
/// nothing is given after it.
pub fn give<L: Link>(link: &mut L, bytes: &[u8]) -> Result<(), LinkFault>
    ensures all { OnOk result (Gave (L.told link.old) (L.told link.new) bytes.now) }
    ensures proper { OnErr result
        (GaveProperPart (L.told link.old) (L.told link.new) bytes.now) }
    ensures cause { HasCause (L.write_faults link.old) (L.write_faults link.new) result }
    ensures reads { L.read_faults link.new ≡ L.read_faults link.old }
{
    let mut at = 0;
    while at < bytes.len() {
        match link.write(&bytes[at..]) {
            Ok(count) => at += count,
            Err(fault) => return Err(fault),
        }
    }
    Ok(())
}

/// Gives a line of failure. A fault changes nothing but how much of the line is given.
#[tactic(auto, using(crate::proofs::GaveLaws::proper_part))]
pub fn report<L: Link>(errors: &mut L, line: &[u8])
    ensures { Reported (L.told errors.old) (L.told errors.new)
        (L.write_faults errors.old) (L.write_faults errors.new) line.now }
{
    let _ = give(errors, line);
}
