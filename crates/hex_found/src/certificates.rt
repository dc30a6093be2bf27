//! Certificates that are found, and checked.

ghost use Rattle.std.specs.Prelude.{◌≡◌, ◌≤◌, true, IfOk, IfSome, None, Ok, length};
ghost use Rattle.hex_board.specs.Positions.{is_empty_at};
ghost use Rattle.hex_found.specs.Found.{IsFound};

use super::refusals::Memory;
use cert_check::check;
use cert_draft::{Sought, claim_for, seek};
use hex_board::Board;
use hex_cells::{Cell, CellSet, Colour};
use std::alloc::Global;
use win_cert::{Cert, Verdict, is_writable, version_for};

/// A certificate that was found.
#[derive(Debug, Drop)]
pub struct Found {
    pub cert: Cert,
    /// The carrier of the entry that it claims.
    pub carrier: CellSet,
}

/// What [`find`] answers.
#[derive(Debug, Drop)]
pub struct Findings {
    /// The certificate, if one was found.
    pub found: Option<Found>,
    /// How many states were entered, whatever was found.
    pub entered: u64,
    /// The cell that the search would have tried next, if it entered the position.
    pub best: Option<Cell>,
}

/// A certificate of who wins the position, of at most so many lines, found by entering at most
/// `budget` states, and how many were entered. There is none if that found none, or one that is too
/// long.
///
/// No clause says when a certificate is found: a body that never finds one, or that memory ran out,
/// is proved, and refused by the tests.
pub fn find(
    alloc: Global,
    board: &Board,
    mover: Colour,
    budget: u64,
    most: usize,
) -> Result<Findings, Memory>
    ensures found { IfOk result (λ r. IfSome r.found (IsFound board.now mover)) }
    ensures few { IfOk result (λ r. IfSome r.found (λ found. length found.cert.lines ≤ most)) }
    ensures within { IfOk result (λ r. r.entered ≤ budget) }
    ensures empty { IfOk result (λ r. IfSome r.best (λ cell. is_empty_at board.now cell ≡ true)) }
{
    let Sought {
        cert,
        entered,
        best,
        ..
    } = seek(alloc, board, mover, budget)?;
    let found = match cert {
        Some(cert) if cert.lines.as_slice().len() <= most => certified(alloc, board, mover, cert)?,
        _ => None,
    };
    Ok(Findings {
        found,
        entered,
        best,
    })
}

/// The certificate, if it has the version that its lines need, can be written, is of this board, is
/// accepted, and claims that its player wins with `mover` to place next.
///
/// A body that always answers `None` is proved, and refused by the tests.
pub fn certified(
    alloc: Global,
    board: &Board,
    mover: Colour,
    cert: Cert,
) -> Result<Option<Found>, Memory>
    ensures found { IfOk result (λ r. IfSome r (IsFound board.now mover)) }
    ensures same { IfOk result (λ r. IfSome r (λ found. found.cert ≡ cert)) }
{
    let is_claimed = cert.claim == claim_for(cert.player, mover);
    let has_version = cert.version == version_for(cert.lines.as_slice());
    if cert.board != *board || !is_claimed || !has_version || !is_writable(&cert) {
        return Ok(None);
    }
    match check(alloc, &cert)? {
        Verdict::Yes { carrier, .. } => Ok(Some(Found { cert, carrier })),
        Verdict::No { .. } => Ok(None),
    }
}
