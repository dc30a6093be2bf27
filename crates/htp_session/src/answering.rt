//! Answers one raw line: at once if nothing is asked for it over the devices.

ghost use Rattle.std.specs.Prelude.{◌≡◌, ◌+◌, ◌≤◌, ◌++◌, length, codes, IfOk, IfSome, IsOk};
ghost use Rattle.std.specs.Prelude.{OnOk, OnErr, option_map, false, Some};
ghost use Rattle.htp_line.specs.Answering.{failure, WritesFor, HasSpareRoom};
ghost use Rattle.hex_engine.specs.Requests.{IsBrief, replied};
ghost use Rattle.htp_session.specs.Talk.{reply_text, is_quit};
ghost use Rattle.hex_devices.specs.Devices.{CountsAs};
ghost use Rattle.hex_devices.specs.Errors.{stop_of_output};
ghost use Rattle.htp_session.specs.Calls.Answering.{SpeaksTo, SpeaksToRequest, WritesAnswer};
ghost use Rattle.htp_session.specs.declared.answering.Said.{Said};

use crate::asking::respond_to;
use crate::holding::give_held;
use crate::questions::Question;
use hex_devices::{DeviceTypes, Devices, OutputError};
use hex_engine::{Answer, Asked, Engine, Fail, Memory};
use htp_line::{
    FRAME, ID_LIMIT, LINE_LIMIT, Parsed, Request, id_text, push_failure, push_success, read_line,
};
use std::alloc::Global;

/// The most bytes of a brief answer beside its id: those round it, and a message of 17 bytes.
pub const BRIEF: usize = FRAME + 17;

/// What a raw line comes to before anything is asked over the devices.
#[derive(Drop)]
pub enum Said {
    /// All that answers it was written. It says whether quit was answered.
    Whole(bool),
    /// It has to be asked over the devices. Nothing was written.
    Open(Question),
}

/// Answers a raw line, or one that is too long, at the end of `out`, and says whether quit was
/// answered. What `out` held is given before anything is asked over the devices, and before it
/// stops because memory ran out.
pub fn respond<D: DeviceTypes>(
    alloc: Global,
    engine: &mut Engine,
    devices: &mut Devices<'_, '_, '_, '_, D>,
    raw: Option<&[u8]>,
    out: &mut Vec<u8>,
) -> Result<bool, OutputError>
    requires short { IfSome raw (λ raw. length raw.now ≤ LINE_LIMIT) }
    ensures writes { WritesAnswer devices.old devices.new engine.old engine.new
        (option_map (λ raw. raw.now) raw.entry) out.old.items out.new.items result }
    ensures counts { CountsAs stop_of_output devices.old devices.new result }
{
    match say(alloc, engine, raw, out) {
        Ok(said) => match said {
            Said::Whole(quit) => Ok(quit),
            Said::Open(question) => respond_to(engine, devices, &question, out),
        },
        Err(_) => {
            give_held(devices, out)?;
            Err(OutputError::Memory)
        }
    }
}

/// Answers a raw line, or one that is too long, at the end of `out`, if that uses nothing up.
fn say(
    alloc: Global,
    engine: &mut Engine,
    raw: Option<&[u8]>,
    out: &mut Vec<u8>,
) -> Result<Said, Memory>
    requires short { IfSome raw (λ raw. length raw.now ≤ LINE_LIMIT) }
    ensures speaks { IfOk result (SpeaksTo engine.old engine.new
        (option_map (λ raw. raw.now) raw.entry) out.old.items out.new.items) }
    ensures err { OnErr result (out.new.items ≡ out.old.items) }
{
    let Some(raw) = raw else {
        return refuse(out, b"", b"line too long");
    };
    match read_line(alloc, raw)? {
        Parsed::Blank => Ok(Said::Whole(false)),
        Parsed::Bare(id) => refuse_bare(alloc, id, out),
        Parsed::Request(request) => say_quietly(alloc, engine, request, out),
    }
}

/// Answers a request at the end of `out`, if that uses nothing up.
fn say_quietly(
    alloc: Global,
    engine: &mut Engine,
    request: Request,
    out: &mut Vec<u8>,
) -> Result<Said, Memory>
    ensures speaks { IfOk result (SpeaksToRequest engine.old engine.new request
        out.old.items out.new.items) }
    ensures err { OnErr result (out.new.items ≡ out.old.items) }
{
    let id = id_text(alloc, request.id)?;
    match engine.answer(&request)? {
        Asked::Quiet(answer) => Ok(Said::Whole(push_answer(out, &id, &answer)?)),
        Asked::Using(command) => Ok(Said::Open(Question {
            request,
            command,
            id,
        })),
    }
}

/// Writes an answer at the end of `out`, and says whether it is that to quit.
pub fn push_answer(out: &mut Vec<u8>, id: &[u8], answer: &Answer) -> Result<bool, Memory>
    requires id { length id.now ≤ ID_LIMIT }
    ensures text { WritesFor id.now (λ n. reply_text n (replied answer.now))
        out.old.items out.new.items result }
    ensures quit { IfOk result (λ quit. quit ≡ is_quit (replied answer.now)) }
    ensures err { OnErr result (out.new.items ≡ out.old.items) }
    ensures room { IsBrief answer.now → HasSpareRoom out.old (length id.now + BRIEF) → IsOk result }
{
    match answer {
        Answer::Done(text) => {
            push_success(out, id, text.as_slice())?;
            Ok(false)
        }
        Answer::Quit => {
            push_success(out, id, b"")?;
            Ok(true)
        }
        Answer::Fail(fail) => {
            push_failure(out, id, fail.message().as_bytes())?;
            Ok(false)
        }
    }
}

/// Writes a failure at the end of `out`. It is no answer to quit.
fn refuse(out: &mut Vec<u8>, id: &[u8], message: &[u8]) -> Result<Said, Memory>
    requires id { length id.now ≤ ID_LIMIT }
    ensures text { WritesFor id.now (λ n. failure n message.now)
        out.old.items out.new.items result }
    ensures whole { IfOk result (λ said. said ≡ Said.Whole false) }
    ensures err { OnErr result (out.new.items ≡ out.old.items) }
{
    push_failure(out, id, message)?;
    Ok(Said::Whole(false))
}

/// Refuses an id that stands alone.
fn refuse_bare(alloc: Global, id: u32, out: &mut Vec<u8>) -> Result<Said, Memory>
    ensures text { OnOk result
        (out.new.items ≡ out.old.items ++ failure (Some id) (codes "syntax error")) }
    ensures whole { IfOk result (λ said. said ≡ Said.Whole false) }
    ensures err { OnErr result (out.new.items ≡ out.old.items) }
{
    let id = id_text(alloc, Some(id))?;
    refuse(out, &id, Fail::Syntax.message().as_bytes())
}
