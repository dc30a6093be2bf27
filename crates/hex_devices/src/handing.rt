//! Hands a turn to an archive, and gives its text to a link.

ghost use Rattle.std.specs.Prelude.{◌≡◌, Err};
ghost use Rattle.hex_io.specs.Causes.{CountsFault};
ghost use Rattle.hex_devices.specs.Handing.{HandsOver};

use crate::faults::HandingFault;
use crate::giving::give_text;
use hex_io::Link;
use hex_plan::{Archive, Turn};

/// Hands the turn to the archive, and then gives the text. It reads nothing, and the text is given
/// only if the archive took the turn.
///
/// `Archive` and `Write` come only if the archive or the stream counted that fault. It refuses
/// nothing else, and takes no memory.
pub fn hand_over<L: Link, A: Archive>(
    link: &mut L,
    archive: &mut A,
    turn: Turn,
    text: &[u8],
) -> Result<(), HandingFault>
    ensures hands { HandsOver (L.told link.old, A.told archive.old)
        (L.told link.new, A.told archive.new) turn text.now result }
    ensures write_fault { CountsFault (L.write_faults link.old) (L.write_faults link.new)
        (result ≡ Err HandingFault.Write) }
    ensures archive_fault { CountsFault (A.faults archive.old) (A.faults archive.new)
        (result ≡ Err HandingFault.Archive) }
    ensures reads { L.read_faults link.new ≡ L.read_faults link.old }
{
    let Ok(()) = archive.take(turn) else {
        return Err(HandingFault::Archive);
    };
    give_text(link, text)?;
    Ok(())
}
