//! What the commands `search-report`, `look-report`, `mustplay` and `wincert` say of a turn.

ghost use Rattle.std.specs.Prelude.{◌≡◌, IfOk, option_map};
ghost use Rattle.hex_plan.specs.TurnTexts.{cert_body, look_of, mustplay_of, texts_of};
ghost use Rattle.hex_plan.specs.TurnTexts.{wincert_of};
ghost use Rattle.win_cert.specs.Writable.{IsWritable};

use super::look_texts::look_text;
use super::mustplay_texts::{search_text, win_text};
use super::report_texts::report_text;
use super::turns::Turn;
use super::types::Plan;
use std::alloc::{AllocError, Global};
use std::marker::Model;
use win_cert::{Cert, write};

/// What `search-report`, `look-report`, `mustplay` and `wincert` say of a turn.
#[derive(Debug, Drop)]
pub struct TurnTexts {
    report: Option<Vec<u8>>,
    look: Option<Vec<u8>>,
    mustplay: Vec<u8>,
    wincert: Option<Vec<u8>>,
}

impl Model for TurnTexts {
    ghost use Rattle.std.specs.Prelude.{option_map};
    ghost use Rattle.hex_plan.specs.TurnTexts.{TurnTextsData};

    ghost Value = { TurnTextsData };

    ghost view = { λ t. record {
      report = option_map (λ text. text.items) t.report;
      look = option_map (λ text. text.items) t.look;
      mustplay = t.mustplay.items;
      wincert = option_map (λ text. text.items) t.wincert;
    } };
}

impl TurnTexts {
    /// The report of the turn's tree; `None` exactly if it has no tree.
    pub fn report(&self) -> Option<&[u8]>
        ensures { option_map (λ text. text.now) result ≡ self.now.report }
    {
        match &self.report {
            Some(text) => Some(text.as_slice()),
            None => None,
        }
    }

    /// What the turn's look-ahead found; `None` exactly if the turn has none.
    pub fn look(&self) -> Option<&[u8]>
        ensures { option_map (λ text. text.now) result ≡ self.now.look }
    {
        match &self.look {
            Some(text) => Some(text.as_slice()),
            None => None,
        }
    }

    /// Of a win its cell; of a search whether the board is lost, the allowed cells, and the
    /// carrier of each threat.
    pub fn mustplay(&self) -> &[u8]
        ensures { result.now ≡ self.now.mustplay }
    {
        &self.mustplay
    }

    /// The certificate of a win or of a loss, without its last line feed; `None` exactly if the
    /// plan is a search and none of a loss stands beside it.
    pub fn wincert(&self) -> Option<&[u8]>
        ensures { option_map (λ text. text.now) result ≡ self.now.wincert }
    {
        match &self.wincert {
            Some(text) => Some(text.as_slice()),
            None => None,
        }
    }
}

/// The texts of a turn. It refuses only if memory runs out.
pub fn turn_texts(alloc: Global, turn: &Turn) -> Result<TurnTexts, AllocError>
    ensures { IfOk result (λ texts. texts ≡ texts_of turn.now) }
{
    let report = report_text(alloc, turn)?;
    let look = looked_text(alloc, turn)?;
    let mustplay = mustplay_text(alloc, turn)?;
    let wincert = wincert_text(alloc, turn)?;
    Ok(TurnTexts {
        report,
        look,
        mustplay,
        wincert,
    })
}

// What the turn's look-ahead found, if it had one.
fn looked_text(alloc: Global, turn: &Turn) -> Result<Option<Vec<u8>>, AllocError>
    ensures { IfOk result (λ look. option_map (λ text. text.items) look
        ≡ option_map (look_of turn.now.board.size) turn.now.looked) }
{
    match turn.looked() {
        None => Ok(None),
        Some(looked) => Ok(Some(look_text(alloc, looked, turn.board().size())?)),
    }
}

// Of a win its cell, of a search whether the board is lost, the allowed cells and the threats.
fn mustplay_text(alloc: Global, turn: &Turn) -> Result<Vec<u8>, AllocError>
    ensures { IfOk result
        (λ text. text.items ≡ mustplay_of turn.now.board.size turn.now.planned.plan) }
{
    let size = turn.board().size();
    match &turn.planned().plan {
        Plan::Win { .. } => win_text(alloc, turn.cell(), size),
        Plan::Search {
            threats,
            allowed,
            lost,
        } => search_text(alloc, threats.as_slice(), *allowed, *lost, size),
    }
}

// The certificate of a win or of a loss, if there is one, without its last line feed.
fn wincert_text(alloc: Global, turn: &Turn) -> Result<Option<Vec<u8>>, AllocError>
    ensures { IfOk result
        (λ text. option_map (λ t. t.items) text
        ≡ wincert_of turn.now.planned.plan turn.now.planned.loss) }
{
    match turn.planned().certificate() {
        Some(cert) => Ok(Some(cert_body(alloc, cert)?)),
        None => Ok(None),
    }
}

// The text of a certificate, without its last line feed.
fn cert_body(alloc: Global, cert: &Cert) -> Result<Vec<u8>, AllocError>
    requires { IsWritable cert.now }
    ensures { IfOk result (λ text. text.items ≡ cert_body cert.now) }
{
    let Ok(text) = write(alloc, cert) else {
        return Err(AllocError);
    };
    let bytes = text.as_slice();
    bytes[..bytes.len().saturating_sub(1)].to_vec(alloc)
}
