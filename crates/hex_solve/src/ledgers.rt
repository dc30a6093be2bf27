//! Ledgers: the lines of a player's certificate, which grow while a search goes on.

ghost use Rattle.std.specs.Prelude.{◌≡◌, ◌-◌, ◌^◌, ◌<◌, [], MatchResult, min};
ghost use Rattle.win_cert.specs.declared.certs.TheConstants.{MOST_LINES};
ghost use Rattle.hex_solve.specs.Ledgers.{IsLedger, LedgerData, ShowsWin, count_of};
ghost use Rattle.hex_solve.specs.Marks.{IsBefore, WasAt, mark_of};
ghost use Rattle.hex_solve.specs.PlainAnswer.{IsCertOf};

use conn_store::Kind;
use hex_board::Board;
use hex_cells::Colour;
use std::alloc::Global;
use std::marker::Model;
use win_cert::{Cert, Line, Lines, MOST_LINES, SECOND_VERSION};

/// The lines of a player's certificate on a board. Lines for which a certificate has no room are
/// counted.
#[derive(Drop)]
pub(crate) struct Ledger {
    pub(super) base: Board,
    pub(super) player: Colour,
    pub(super) lines: Vec<Line>,
    // How many lines there was no room for, up to the greatest count.
    pub(super) lost: u64,
}

impl Model for Ledger {
    ghost use Rattle.hex_solve.specs.Ledgers.{LedgerData, IsLedger};

    ghost Value = { LedgerData };

    ghost view = { λ l. record {
      base = record { board = l.base; player = l.player };
      lines = l.lines.items;
      lost = l.lost;
    } };

    ghost invariant = { λ l. IsLedger (record {
      base = record { board = l.base; player = l.player };
      lines = l.lines.items;
      lost = l.lost;
    }) };
}

/// How far a ledger was.
#[derive(Clone, Copy)]
pub(crate) struct Mark {
    lines: usize,
    lost: u64,
}

impl Ledger {
    /// The ledger of a player on a board, without lines.
    pub fn make(alloc: Global, board: &Board, player: Colour) -> Ledger
        ensures { result ≡ record {
          base = record { board = board.now; player = player };
          lines = [];
          lost = 0;
        } }
    {
        Ledger {
            base: *board,
            player,
            lines: Vec::new(alloc),
            lost: 0,
        }
    }

    /// The player.
    pub fn player(&self) -> Colour
        ensures value { result ≡ self.now.base.player }
        ensures kept { IsLedger self.now }
    {
        self.player
    }

    /// How far the ledger is.
    pub fn mark(&self) -> Mark
        ensures value { result ≡ mark_of self.now }
        ensures kept { IsLedger self.now }
    {
        Mark {
            lines: self.lines.len(),
            lost: self.lost,
        }
    }

    /// Takes back what came after the mark.
    pub fn back(&mut self, mark: Mark)
        requires { WasAt mark self.old }
        ensures { (old : LedgerData) → IsBefore old mark self.old → self.new ≡ old }
    {
        self.lines.truncate(mark.lines);
        self.lost = mark.lost;
    }

    /// The certificate of the lines, whose claim names this one; or how many lines there would be,
    /// if there was no room for all.
    pub fn into_cert(self, claim: Kind, entry: u32) -> Result<Cert, u64>
        requires { ShowsWin self self.base.board claim entry }
        ensures { MatchResult result (IsCertOf self claim)
            (λ lines. (MOST_LINES < lines) × (lines ≡ min (count_of self) (2 ^ 64 - 1))) }
    {
        if self.lost == 0 {
            Ok(Cert {
                version: SECOND_VERSION,
                board: self.base,
                player: self.player,
                lines: Lines::of(self.lines),
                claim,
                entry,
            })
        } else {
            Err((self.lines.len() as u64).saturating_add(self.lost))
        }
    }
}
