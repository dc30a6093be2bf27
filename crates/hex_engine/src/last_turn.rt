//! The quiet commands that ask for the last turn: `search-report`, `look-report`, `mustplay` and
//! `wincert`.

ghost use Rattle.std.specs.Prelude.{IfOk};
ghost use Rattle.std.specs.Option.{option_and_then, option_map};
ghost use Rattle.hex_engine.specs.QuietReplies.{text_or};
ghost use Rattle.hex_engine.specs.Requests.{Tells};

use super::answers::{Answer, Fail, Memory};
use super::telling::tell;
use hex_plan::TurnTexts;
use std::alloc::Global;

/// `search-report`.
/// Fails: `no search`.
/// Answers the playouts of the last turn's search, and each child of its root with visits and wins.
pub fn tell_report(alloc: Global, last: &Option<TurnTexts>) -> Result<Answer, Memory>
    ensures { IfOk result (Tells
        (text_or Fail.NoSearch (option_and_then (λ texts. texts.report) last.now))) }
{
    let Some(texts) = last else {
        return Ok(Answer::Fail(Fail::NoSearch));
    };
    match texts.report() {
        Some(text) => tell(alloc, text),
        None => Ok(Answer::Fail(Fail::NoSearch)),
    }
}

/// `look-report`.
/// Fails: `no look`.
/// Answers how many nodes the last turn's look-ahead judged, and of each cell that it was given the
/// walks by it, its value in thousandths, and who wins after it, if that is known.
pub fn tell_look(alloc: Global, last: &Option<TurnTexts>) -> Result<Answer, Memory>
    ensures { IfOk result (Tells
        (text_or Fail.NoLook (option_and_then (λ texts. texts.look) last.now))) }
{
    let Some(texts) = last else {
        return Ok(Answer::Fail(Fail::NoLook));
    };
    match texts.look() {
        Some(text) => tell(alloc, text),
        None => Ok(Answer::Fail(Fail::NoLook)),
    }
}

/// `mustplay`.
/// Fails: `no search`.
/// Answers the last turn's plan: of a win its cell; of a search whether the board was lost, the
/// allowed cells, and the carrier of each threat.
pub fn tell_plan(alloc: Global, last: &Option<TurnTexts>) -> Result<Answer, Memory>
    ensures { IfOk result (Tells
        (text_or Fail.NoSearch (option_map (λ texts. texts.mustplay) last.now))) }
{
    match last {
        Some(texts) => tell(alloc, texts.mustplay()),
        None => Ok(Answer::Fail(Fail::NoSearch)),
    }
}

/// `wincert`.
/// Fails: `no certificate`.
/// Answers the certificate of the last turn, of a win or of a loss, without its last line feed.
pub fn tell_certificate(alloc: Global, last: &Option<TurnTexts>) -> Result<Answer, Memory>
    ensures { IfOk result (Tells
        (text_or Fail.NoCert (option_and_then (λ texts. texts.wincert) last.now))) }
{
    let Some(texts) = last else {
        return Ok(Answer::Fail(Fail::NoCert));
    };
    match texts.wincert() {
        Some(text) => tell(alloc, text),
        None => Ok(Answer::Fail(Fail::NoCert)),
    }
}
