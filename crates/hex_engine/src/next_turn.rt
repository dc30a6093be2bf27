//! The next turn of a conversation, and what is told of it.

ghost use Rattle.std.specs.Prelude.{◌≡◌, ◌≤◌, length, true, IfOk};
ghost use Rattle.hex_cells.specs.Vertices.{vertex_of};
ghost use Rattle.hex_game.specs.Games.{board_of};
ghost use Rattle.hex_plan.specs.Openings.{may_move};
ghost use Rattle.hex_plan.specs.TurnTexts.{texts_of};
ghost use Rattle.hex_engine.specs.MoveReplies.{is_next};
ghost use Rattle.hex_plan.specs.Good.{IsGood};

use super::answers::Memory;
use super::state::Engine;
use super::texts::vertex_text;
use hex_cells::Colour;
use hex_plan::{Turn, TurnTexts, turn_texts};
use htp_line::HtpText;
use search_team::Gate;
use std::thread::Threads;
use turn_search::decided_turn;

/// A turn, with what is told of it: the texts of the commands that ask for it, and the vertex of
/// its cell.
#[derive(Drop)]
pub struct Prepared {
    pub turn: Turn,
    pub texts: TurnTexts,
    pub vertex: HtpText,
}

impl Engine {
    /// The next turn, with what is told of it. Nothing changes but what its look-ahead keeps.
    pub(super) fn prepare<R: Threads + Sync, G: Gate + Sync>(
        &mut self,
        rt: &R,
        colour: Colour,
        gate: &G,
    ) -> Result<Prepared, Memory>
        requires { may_move (board_of self.old.game) ≡ true }
        ensures good { IfOk result
            (λ next. IsGood self.old.options.knobs self.old.options.means next.turn) }
        ensures next { IfOk result (λ next. is_next self.old colour next.turn ≡ true) }
        ensures texts { IfOk result (λ next. next.texts ≡ texts_of next.turn) }
        ensures vertex { IfOk result (λ next.
            next.vertex ≡ vertex_of (board_of self.old.game).size next.turn.cell) }
        ensures length { IfOk result (λ next. length next.vertex ≤ 3) }
        ensures same { self.new ≡ self.old }
    {
        let turn = self.decide(rt, colour, gate)?;
        let texts = turn_texts(self.alloc, &turn)?;
        let vertex = vertex_text(self.alloc, turn.cell(), turn.board().size())?;
        Ok(Prepared {
            turn,
            texts,
            vertex,
        })
    }

    /// The turn that is owed on the board with this colour to move.
    fn decide<R: Threads + Sync, G: Gate + Sync>(
        &mut self,
        rt: &R,
        colour: Colour,
        gate: &G,
    ) -> Result<Turn, Memory>
        requires { may_move (board_of self.old.game) ≡ true }
        ensures good { IfOk result
            (IsGood self.old.options.knobs self.old.options.means) }
        ensures next { IfOk result (λ turn. is_next self.old colour turn ≡ true) }
        ensures same { self.new ≡ self.old }
    {
        let board = self.game.board();
        let knobs = &self.options.knobs;
        let means = self.options.means;
        let kept = &mut self.kept;
        match decided_turn(
            rt, self.alloc, board, colour, self.turns, knobs, means, gate, kept,
        ) {
            Ok(turn) => Ok(turn),
            Err(_) => Err(Memory),
        }
    }
}
