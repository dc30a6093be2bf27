//! The check of a certificate, line by line.

ghost use Rattle.std.specs.Prelude.{◌↔◌, IfOk};
ghost use Rattle.hex_board.specs.Positions.{IsPosition};
ghost use Rattle.win_cert.specs.Laws.{WinsAsClaimed};
ghost use Rattle.win_cert.specs.Verdicts.{Accepted, IsVerdict};
ghost use Rattle.win_cert.specs.Writable.{IsWritable};
ghost use Rattle.cert_check.specs.Answers.{IsYes};

use super::checkers::Checker;
use super::refusals::Memory;
use hex_board::Board;
use hex_cells::Colour;
use std::alloc::Global;
use win_cert::{Cert, Verdict, accepted_certificates_win};

/// Checks a certificate that can be written: whether it is accepted. If it is, the player wins as
/// it claims. Else the verdict names the first line against which there is a reason, the claim
/// being the last, and the first reason in the order 1, 11, 12, 2 to 10, 13. The only refusal is
/// that memory runs out, which may come at any certificate.
pub fn check(alloc: Global, cert: &Cert) -> Result<Verdict, Memory>
    requires { IsWritable cert.now }
    ensures verdict { IfOk result (λ v. IsVerdict cert.now v) }
    ensures accepted { IfOk result (λ v. IsYes v ↔ Accepted cert.now) }
    ensures wins { IfOk result (λ v. IsYes v → WinsAsClaimed cert.now) }
{
    accepted_certificates_win();
    boards_are_positions(&cert.board);
    let mut checker = Checker::new(alloc, &cert.board, cert.player, cert.lines.as_slice().len())?;
    let mut number = 0;
    'lines: for line in cert.lines.as_slice() {
        match checker.read(line) {
            Ok(given) => checker.keep(line, given)?,
            Err(reason) => return Ok(Verdict::No {
                line: number,
                reason,
            }),
        }
        number += 1;
    }
    Ok(match checker.claimed(cert.claim, cert.entry) {
        Ok(given) => Verdict::Yes {
            claim: cert.claim,
            carrier: given.carrier,
        },
        Err(reason) => Verdict::No {
            line: number,
            reason,
        },
    })
}

// The board has 1 to 11 rows, and its stones lie on it and have no cell in common.
fn boards_are_positions(board: &Board)
    ensures { IsPosition board.now.size board.now.black board.now.white }
{
    board.keeps();
}
