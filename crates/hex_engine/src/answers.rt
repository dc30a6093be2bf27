//! What the engine answers.

ghost use Rattle.std.specs.Prelude.{◌≡◌};
ghost use Rattle.hex_engine.specs.Replies.{message};
ghost use Rattle.hex_engine.specs.declared.answers.EngineError.TheVariants.{Memory};

use super::commands::Using;
use htp_line::HtpText;
use std::alloc::AllocError;
use thiserror::Error;

/// Why a request fails. The numbers are those of the manual's table of failures.
#[derive(Clone, Copy, Debug, PartialEq, Eq, Drop)]
pub enum Fail {
    /// No command that is built has this name.
    UnknownCommand = 1,
    /// The number or the form of the arguments is wrong, or an id stands alone.
    Syntax = 2,
    /// A number is not 1 to 11, or two numbers differ.
    Size = 3,
    /// The vertex is not on the board, or the move is not legal.
    Illegal = 4,
    /// A player is joined, or no cell is empty.
    Over = 5,
    /// There is no step to take back.
    NoUndo = 6,
    /// The shelf has no file of the name, or it is too long, or no record of a game.
    NoLoad = 7,
    /// The shelf was at fault.
    ReadFault = 8,
    /// No turn was made yet, or the report is asked for of a turn that was not searched.
    NoSearch = 9,
    /// No turn was made yet, or the last turn's plan is no win.
    NoCert = 10,
    /// No turn was made yet, or the last turn had no look-ahead.
    NoLook = 11,
}

impl Fail {
    /// The text of the failure.
    pub fn message(self) -> &'static str
        ensures { result.now ≡ message self }
    {
        match self {
            Fail::UnknownCommand => "unknown command",
            Fail::Syntax => "syntax error",
            Fail::Size => "unacceptable size",
            Fail::Illegal => "illegal move",
            Fail::Over => "game over",
            Fail::NoUndo => "cannot undo",
            Fail::NoLoad => "cannot load file",
            Fail::ReadFault => "read fault",
            Fail::NoSearch => "no search",
            Fail::NoCert => "no certificate",
            Fail::NoLook => "no look",
        }
    }
}

/// What answers a request.
#[derive(Debug, Drop)]
pub enum Answer {
    /// A success with this text.
    Done(HtpText),
    /// A success without text, after which nothing more is answered.
    Quit,
    /// A failure.
    Fail(Fail),
}

/// What a request comes to before a file or a turn is used up.
#[derive(Debug, Drop)]
pub enum Asked {
    /// It uses nothing up, and this answers it.
    Quiet(Answer),
    /// It asks for this command, which is still to be obeyed.
    Using(Using),
}

/// Memory ran out.
#[derive(Clone, Copy, Debug, PartialEq, Eq)]
pub struct Memory;

impl From<AllocError> for Memory {
    fn from(_error: AllocError) -> Memory {
        Memory
    }
}

impl From<htp_line::Memory> for Memory {
    fn from(_error: htp_line::Memory) -> Memory {
        Memory
    }
}

/// Why a request got no answer. Nothing changed then.
#[derive(Clone, Copy, Debug, PartialEq, Eq, Drop, Error)]
pub enum EngineError {
    /// Memory ran out.
    #[error("out of memory")]
    Memory,
    /// The archive did not take a turn, and counted a fault.
    #[error("archive fault")]
    Archive,
}

impl From<AllocError> for EngineError {
    ghost from_gives = { λ _ error. error ≡ Memory };

    fn from(_error: AllocError) -> EngineError {
        EngineError::Memory
    }
}

impl From<Memory> for EngineError {
    ghost from_gives = { λ _ error. error ≡ Memory };

    fn from(_error: Memory) -> EngineError {
        EngineError::Memory
    }
}

impl From<htp_line::Memory> for EngineError {
    ghost from_gives = { λ _ error. error ≡ Memory };

    fn from(_error: htp_line::Memory) -> EngineError {
        EngineError::Memory
    }
}
