//! Turns: the command `genmove`.

ghost use Rattle.std.specs.Prelude.{◌≡◌, true, IfOk, OnErr, Err, Some};
ghost use Rattle.hex_io.specs.Causes.{CountsFault};
ghost use Rattle.hex_io.specs.Told.{Same};
ghost use Rattle.hex_game.specs.Games.{IsOnBoard, board_of, is_legal, with_step};
ghost use Rattle.hex_game.specs.Moves.{step_of};
ghost use Rattle.hex_game.specs.declared.moves.Move.TheVariants.{Stone};
ghost use Rattle.hex_plan.specs.Openings.{may_move};
ghost use Rattle.hex_engine.specs.Faults.{IsArchiveFault};
ghost use Rattle.hex_engine.specs.Calls.{AnswersMove, TakesNext};
ghost use Rattle.hex_engine.specs.MoveReplies.{moving};
ghost use Rattle.hex_engine.specs.Replies.{NoTurn};
ghost use Rattle.hex_engine.specs.Requests.{IsBrief, TellsNoFault};
ghost use Rattle.hex_engine.specs.Supply.{nothing_left};

use super::answers::{Answer, EngineError, Fail};
use super::forms::lone_colour;
use super::state::Engine;
use hex_cells::{Cell, Colour};
use hex_game::Move;
use hex_plan::{Archive, TurnTexts, may_move};
use htp_line::HtpText;
use search_team::Gate;
use std::thread::Threads;

impl Engine {
    /// `genmove`, with a colour.
    /// Fails, in order: `syntax error`; `game over`.
    /// Answers the vertex of the turn's cell, on which it puts a stone; the archive has the turn
    /// then.
    pub(super) fn generate<R: Threads + Sync, A: Archive, G: Gate + Sync>(
        &mut self,
        rt: &R,
        args: &[HtpText],
        archive: &mut A,
        gate: &G,
    ) -> Result<Answer, EngineError>
        ensures reply { IfOk result (λ answer. AnswersMove
            self.old args.now (A.told archive.old) (A.told archive.new) answer self.new) }
        ensures brief { IfOk result IsBrief }
        ensures calm { IfOk result TellsNoFault }
        ensures err { OnErr result (self.new ≡ self.old) }
        ensures in_vain { OnErr result (Same (A.told archive.old) (A.told archive.new)) }
        ensures wants_turn { result ≡ Err EngineError.Archive →
            moving self.old nothing_left args.now ≡ Err NoTurn }
        ensures archive_fault { CountsFault (A.faults archive.old) (A.faults archive.new)
            (IsArchiveFault result) }
    {
        let Some(colour) = lone_colour(args) else {
            return Ok(Answer::Fail(Fail::Syntax));
        };
        if !may_move(self.game.board()) {
            return Ok(Answer::Fail(Fail::Over));
        }
        self.take_turn(rt, colour, archive, gate)
    }

    /// Makes the next turn, hands it to the archive, and plays its cell. All that the answer and
    /// later questions need is made before the turn is handed over.
    fn take_turn<R: Threads + Sync, A: Archive, G: Gate + Sync>(
        &mut self,
        rt: &R,
        colour: Colour,
        archive: &mut A,
        gate: &G,
    ) -> Result<Answer, EngineError>
        requires { may_move (board_of self.old.game) ≡ true }
        ensures reply { IfOk result (λ answer. TakesNext
            self.old colour (A.told archive.old) (A.told archive.new) answer self.new) }
        ensures brief { IfOk result IsBrief }
        ensures calm { IfOk result TellsNoFault }
        ensures err { OnErr result (self.new ≡ self.old) }
        ensures in_vain { OnErr result (Same (A.told archive.old) (A.told archive.new)) }
        ensures archive_fault { CountsFault (A.faults archive.old) (A.faults archive.new)
            (IsArchiveFault result) }
    {
        // A session has no room for more turns than this.
        let Some(turns) = self.turns.checked_add(1) else {
            return Err(EngineError::Memory);
        };
        let next = self.prepare(rt, colour, gate)?;
        let cell = next.turn.cell();
        match archive.take(next.turn) {
            Err(_) => Err(EngineError::Archive),
            Ok(()) => {
                self.end_turn(colour, cell, turns, next.texts);
                Ok(Answer::Done(next.vertex))
            }
        }
    }

    /// Plays the cell of a turn, which is then the last one, with these texts.
    fn end_turn(&mut self, colour: Colour, cell: Cell, turns: u64, texts: TurnTexts)
        requires on_board { IsOnBoard (board_of self.old.game) (Stone cell) }
        requires legal { is_legal self.old.game (step_of colour (Stone cell)) ≡ true }
        ensures { self.new ≡ record self.old {
          game = with_step self.old.game (step_of colour (Stone cell));
          turns = turns;
          last = Some texts;
        } }
    {
        self.game.play(colour, Move::Stone(cell)).unwrap();
        self.turns = turns;
        self.last = Some(texts);
    }
}
