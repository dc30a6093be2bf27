//! The faults of the devices: why a call failed that can fail by nothing else.

ghost use Rattle.std.specs.Prelude.{◌≡◌};

use crate::stops::Stop;

/// A read failed.
#[derive(Clone, Copy, Debug, PartialEq, Eq)]
pub struct ReadFault;

/// A write failed.
#[derive(Clone, Copy, Debug, PartialEq, Eq)]
pub struct WriteFault;

/// A turn was not handed over with its text.
#[derive(Clone, Copy, Debug, PartialEq, Eq)]
pub enum HandingFault {
    /// The archive failed.
    Archive,
    /// The archive took the turn, and a write of its text failed.
    Write,
}

impl From<ReadFault> for Stop {
    ghost use Rattle.hex_devices.specs.declared.stops.Stop.{Stop};

    ghost from_gives = { λ _ stop. stop ≡ Stop.ReadFault };

    fn from(_fault: ReadFault) -> Stop {
        Stop::ReadFault
    }
}

impl From<WriteFault> for HandingFault {
    ghost use Rattle.hex_devices.specs.declared.faults.HandingFault.{HandingFault};

    ghost from_gives = { λ _ fault. fault ≡ HandingFault.Write };

    fn from(_fault: WriteFault) -> HandingFault {
        HandingFault::Write
    }
}
