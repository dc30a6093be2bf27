//! Asks the engine for an answer, over the devices.

ghost use Rattle.std.specs.Prelude.{◌≡◌};
ghost use Rattle.hex_devices.specs.Devices.{CountsAs};
ghost use Rattle.hex_devices.specs.Errors.{stop_of_output};
ghost use Rattle.htp_session.specs.Calls.Answering.{WritesReply};
ghost use Rattle.htp_session.specs.Calls.Asking.{Asks, Replies, output_of_engine, stop_of_engine};

use crate::answering::{BRIEF, push_answer};
use crate::holding::give_held;
use crate::questions::Question;
use hex_devices::{DeviceTypes, Devices, OutputError};
use hex_engine::{Answer, Engine, EngineError};

/// Why nothing is given for a question to which the engine gave no answer.
fn output_error(error: EngineError) -> OutputError
    ensures { result ≡ output_of_engine error }
{
    match error {
        EngineError::Memory => OutputError::Memory,
        EngineError::Archive => OutputError::Archive,
    }
}

/// Gives what `out` holds, so that a question that takes long holds back no answer; and then
/// answers the question at the end of `out`, and says whether quit was answered.
pub fn respond_to<D: DeviceTypes>(
    engine: &mut Engine,
    devices: &mut Devices<'_, '_, '_, '_, D>,
    question: &Question,
    out: &mut Vec<u8>,
) -> Result<bool, OutputError>
    ensures writes { WritesReply devices.old devices.new engine.old engine.new
        question.now out.old.items out.new.items result }
    ensures counts { CountsAs stop_of_output devices.old devices.new result }
{
    give_held(devices, out)?;
    match reply(engine, devices, question, out) {
        Err(error) => Err(output_error(error)),
        Ok(quit) => Ok(quit),
    }
}

/// Answers a question at the end of `out`, and says whether quit was answered. There is room for a
/// brief answer before the engine is asked, so the answer of each turn that the archive took is
/// written.
fn reply<D: DeviceTypes>(
    engine: &mut Engine,
    devices: &mut Devices<'_, '_, '_, '_, D>,
    question: &Question,
    out: &mut Vec<u8>,
) -> Result<bool, EngineError>
    ensures replies { Replies devices.old devices.new engine.old engine.new
        question.now out.old.items out.new.items result }
    ensures link { devices.new.link ≡ devices.old.link }
    ensures counts { CountsAs stop_of_engine devices.old devices.new result }
{
    let id = question.id.as_slice();
    out.reserve(id.len() + BRIEF)?;
    let answer = ask(devices, engine, question)?;
    Ok(push_answer(out, id, &answer)?)
}

/// Asks the engine a question.
fn ask<D: DeviceTypes>(
    devices: &mut Devices<'_, '_, '_, '_, D>,
    engine: &mut Engine,
    question: &Question,
) -> Result<Answer, EngineError>
    ensures asks { Asks devices.old devices.new engine.old engine.new question.now result }
    ensures link { devices.new.link ≡ devices.old.link }
    ensures counts { CountsAs stop_of_engine devices.old devices.new result }
{
    engine.obey_with(
        devices.rt,
        question.command,
        question.request.args.as_slice(),
        &mut *devices.shelf,
        &mut *devices.archive,
        devices.gate,
    )
}
