//! How a run ends: its status, and the line that it gives to the errors.

ghost use Rattle.std.specs.Prelude.{◌≡◌};
ghost use Rattle.hex_devices.specs.Statuses.{end_of_outcome, end_of_answer, end_of_output};
ghost use Rattle.hex_devices.specs.Statuses.{status_of, error_line};

use crate::errors::{AnswerError, OutputError};
use crate::stops::Stop;

/// How a run ended.
#[derive(Clone, Copy, Debug, PartialEq, Eq)]
pub enum End {
    /// It did what its words ask for.
    Done,
    /// It read its whole input, and answered that this is not accepted.
    Rejected,
    /// The words are not well formed.
    Usage,
    /// It stopped before its end.
    Stopped(Stop),
}

impl End {
    /// How a run ends whose session ended so.
    pub fn of(outcome: Result<(), Stop>) -> End
        ensures { result ≡ end_of_outcome outcome }
    {
        match outcome {
            Ok(()) => End::Done,
            Err(stop) => End::Stopped(stop),
        }
    }

    /// How a run ends that answered its whole input, accepted or not, or stopped before.
    pub fn of_answer(answer: Result<bool, AnswerError>) -> End
        ensures { result ≡ end_of_answer answer }
    {
        match answer {
            Ok(true) => End::Done,
            Ok(false) => End::Rejected,
            Err(error) => End::Stopped(Stop::from(error)),
        }
    }

    /// How a run ends that gave what it owes, or stopped before.
    pub fn of_output(output: Result<(), OutputError>) -> End
        ensures { result ≡ end_of_output output }
    {
        match output {
            Ok(()) => End::Done,
            Err(error) => End::Stopped(Stop::from(error)),
        }
    }

    /// The status of a run that ended so.
    pub fn status(self) -> u8
        ensures { result ≡ status_of self }
    {
        match self {
            End::Done => 0,
            End::Rejected => 1,
            End::Usage => 2,
            End::Stopped(Stop::ReadFault) => 3,
            End::Stopped(Stop::WriteFault) => 4,
            End::Stopped(Stop::Memory) => 5,
            End::Stopped(Stop::TooLong) => 6,
            End::Stopped(Stop::ArchiveFault) => 7,
        }
    }

    /// The line for the errors, or nothing.
    pub fn line(self) -> &'static [u8]
        ensures { result.now ≡ error_line self }
    {
        match self {
            End::Done | End::Rejected | End::Stopped(Stop::WriteFault) => b"",
            End::Usage => b"hexd: usage\n",
            End::Stopped(Stop::ReadFault) => b"hexd: read fault\n",
            End::Stopped(Stop::Memory) => b"hexd: out of memory\n",
            End::Stopped(Stop::TooLong) => b"hexd: input too long\n",
            End::Stopped(Stop::ArchiveFault) => b"hexd: archive fault\n",
        }
    }
}
