//! Why a call did not do all that it is for: a fault of a device, or another reason that can come.
//! Each is told as the stop of a run that ends with it.

ghost use Rattle.std.specs.Prelude.{◌≡◌};

use crate::faults::{HandingFault, WriteFault};
use crate::stops::Stop;
use std::alloc::AllocError;

/// Why a whole input was not taken.
#[derive(Clone, Copy, Debug, PartialEq, Eq)]
pub enum InputError {
    /// A read failed.
    Read,
    /// The input is longer than the limit.
    TooLong,
    /// Memory ran out.
    Memory,
}

/// Why a whole input was not answered by its text.
#[derive(Clone, Copy, Debug, PartialEq, Eq)]
pub enum AnswerError {
    /// The input was not taken whole.
    Input(InputError),
    /// The input was taken whole, and memory ran out as its answer was made.
    Memory,
    /// A write of the text failed.
    Write,
}

/// Why what is owed was not given: the text of a turn, or the answers of a session.
#[derive(Clone, Copy, Debug, PartialEq, Eq)]
pub enum OutputError {
    /// Memory ran out as it was made.
    Memory,
    /// The archive failed.
    Archive,
    /// A write failed.
    Write,
}

impl From<AllocError> for InputError {
    ghost use Rattle.hex_devices.specs.declared.errors.InputError.{InputError};

    ghost from_gives = { λ _ error. error ≡ InputError.Memory };

    fn from(_refused: AllocError) -> InputError {
        InputError::Memory
    }
}

impl From<InputError> for AnswerError {
    ghost use Rattle.hex_devices.specs.declared.errors.AnswerError.{AnswerError};

    ghost from_gives = { λ input error. error ≡ AnswerError.Input input };

    fn from(input: InputError) -> AnswerError {
        AnswerError::Input(input)
    }
}

impl From<AllocError> for AnswerError {
    ghost use Rattle.hex_devices.specs.declared.errors.AnswerError.{AnswerError};

    ghost from_gives = { λ _ error. error ≡ AnswerError.Memory };

    fn from(_refused: AllocError) -> AnswerError {
        AnswerError::Memory
    }
}

impl From<WriteFault> for AnswerError {
    ghost use Rattle.hex_devices.specs.declared.errors.AnswerError.{AnswerError};

    ghost from_gives = { λ _ error. error ≡ AnswerError.Write };

    fn from(_fault: WriteFault) -> AnswerError {
        AnswerError::Write
    }
}

impl From<hex_plan::Memory> for OutputError {
    ghost use Rattle.hex_devices.specs.declared.errors.OutputError.{OutputError};

    ghost from_gives = { λ _ error. error ≡ OutputError.Memory };

    fn from(_refused: hex_plan::Memory) -> OutputError {
        OutputError::Memory
    }
}

impl From<WriteFault> for OutputError {
    ghost use Rattle.hex_devices.specs.declared.errors.OutputError.{OutputError};

    ghost from_gives = { λ _ error. error ≡ OutputError.Write };

    fn from(_fault: WriteFault) -> OutputError {
        OutputError::Write
    }
}

impl From<HandingFault> for OutputError {
    ghost use Rattle.hex_devices.specs.Errors.{output_of_handing};

    ghost from_gives = { λ fault error. error ≡ output_of_handing fault };

    fn from(fault: HandingFault) -> OutputError {
        match fault {
            HandingFault::Archive => OutputError::Archive,
            HandingFault::Write => OutputError::Write,
        }
    }
}

impl From<InputError> for Stop {
    ghost use Rattle.hex_devices.specs.Errors.{stop_of_input};

    ghost from_gives = { λ error stop. stop ≡ stop_of_input error };

    fn from(error: InputError) -> Stop {
        match error {
            InputError::Read => Stop::ReadFault,
            InputError::TooLong => Stop::TooLong,
            InputError::Memory => Stop::Memory,
        }
    }
}

impl From<AnswerError> for Stop {
    ghost use Rattle.hex_devices.specs.Errors.{stop_of_answer};

    ghost from_gives = { λ error stop. stop ≡ stop_of_answer error };

    fn from(error: AnswerError) -> Stop {
        match error {
            AnswerError::Input(error) => Stop::from(error),
            AnswerError::Memory => Stop::Memory,
            AnswerError::Write => Stop::WriteFault,
        }
    }
}

impl From<OutputError> for Stop {
    ghost use Rattle.hex_devices.specs.Errors.{stop_of_output};

    ghost from_gives = { λ error stop. stop ≡ stop_of_output error };

    fn from(error: OutputError) -> Stop {
        match error {
            OutputError::Memory => Stop::Memory,
            OutputError::Archive => Stop::ArchiveFault,
            OutputError::Write => Stop::WriteFault,
        }
    }
}
