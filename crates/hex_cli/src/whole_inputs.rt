//! The modes that answer their whole input by one text.

ghost use Rattle.hex_devices.specs.Devices.{CountsStop};
ghost use Rattle.hex_cli.specs.WholeInputs.{IsTextOf};
ghost use Rattle.hex_cli.specs.Modes.{AnswersBy};
ghost use Rattle.hex_cli.specs.Runs.{IsUnarchived, IsUnfetched};
ghost use Rattle.hex_devices.specs.Statuses.{stop_in};
ghost use Rattle.hex_io.specs.declared.limits.TheConstants.{INPUT_LIMIT};

use crate::audits::audit_traces;
use crate::certificates::{check_certificate, migrate_certificate};
use crate::solutions::{SolveOptions, solve_record};
use hex_devices::{DeviceTypes, Devices, End, InputAnswer, InputReader, answer_input};
use hex_io::INPUT_LIMIT;
use std::alloc::{AllocError, Global};

/// What is done with the whole input.
#[derive(Clone, Copy, Debug, PartialEq, Eq)]
pub enum InputMode {
    /// It is checked as a certificate.
    Check,
    /// It is written as a certificate, of version 2 if it is of version 1.
    Migrate,
    /// It is audited as traces of closed trees.
    Audit,
    /// It is read as the record of a game, and solved.
    Solve(SolveOptions),
}

impl InputReader for InputMode {
    ghost answers = { λ mode. IsTextOf mode };

    ghost most = { λ mode. INPUT_LIMIT };

    fn answer(&self, alloc: Global, input: &[u8]) -> Result<InputAnswer, AllocError> {
        match self {
            InputMode::Check => check_certificate(alloc, input),
            InputMode::Migrate => migrate_certificate(alloc, input),
            InputMode::Audit => audit_traces(alloc, input),
            InputMode::Solve(options) => solve_record(alloc, options, input),
        }
    }
}

/// Takes the whole input of the link, and gives the text that answers it.
pub fn serve_input<D: DeviceTypes>(
    alloc: Global,
    mode: InputMode,
    devices: &mut Devices<'_, '_, '_, '_, D>,
) -> End
    ensures answers { AnswersBy (IsTextOf mode) result
        devices.old devices.new }
    ensures unfetched { IsUnfetched devices.old devices.new }
    ensures unarchived { IsUnarchived devices.old devices.new }
    ensures counts { CountsStop devices.old devices.new (stop_in result) }
{
    let answer = answer_input(alloc, &mut *devices.link, &mode, INPUT_LIMIT);
    End::of_answer(answer)
}
