//! The engine: what it keeps, and the two calls that answer a request.

ghost use Rattle.std.specs.Prelude.{◌≡◌, IfOk, OnErr, Ok, Err};
ghost use Rattle.hex_io.specs.Causes.{CountsFault};
ghost use Rattle.hex_io.specs.Told.{Same};
ghost use Rattle.tree_words.specs.Settings.{AreInRange};
ghost use Rattle.hex_engine.specs.Faults.{IsArchiveFault, IsReadFault};
ghost use Rattle.hex_engine.specs.EngineState.{opening};
ghost use Rattle.hex_engine.specs.Replies.{NoTurn};
ghost use Rattle.hex_engine.specs.Requests.{ComesTo, obeyed};
ghost use Rattle.hex_engine.specs.Supply.{nothing_left};
ghost use Rattle.hex_engine.specs.Uses.{Answered, UsesNothing};

use super::answers::{Answer, Asked, EngineError, Fail, Memory};
use super::commands::{Command, Using};
use super::options::Options;
use hex_board::Board;
use hex_cells::Size;
use hex_game::Game;
use hex_io::Shelf;
use hex_plan::{Archive, TurnTexts};
use htp_line::{HtpText, Request};
use search_team::Gate;
use std::alloc::Global;
use std::marker::Model;
use std::thread::Threads;
use turn_search::KeptLook;

/// Answers requests one by one, each from the game that the requests before it led to.
#[derive(Drop)]
pub struct Engine {
    pub(super) alloc: Global,
    pub(super) options: Options,
    pub(super) game: Game,
    pub(super) turns: u64,
    pub(super) last: Option<TurnTexts>,
    /// What the last turn's look-ahead found, if only moves were made since.
    pub(super) kept: KeptLook,
}

impl Model for Engine {
    ghost use Rattle.tree_words.specs.Settings.{AreInRange};
    ghost use Rattle.hex_engine.specs.EngineState.{EngineState};

    ghost Value = { EngineState };

    ghost view = { λ e. record {
      options = e.options;
      game = e.game;
      turns = e.turns;
      last = e.last;
    } };

    ghost invariant = { λ e. AreInRange e.options.knobs };
}

impl Engine {
    /// An engine over an empty board of that size. The knobs of its searches are in their ranges.
    pub fn make(alloc: Global, options: &Options, size: Size) -> Result<Engine, Memory>
        requires { AreInRange options.now.knobs }
        ensures { IfOk result (λ engine. engine ≡ opening options.now size) }
    {
        let board = Board::empty(size);
        match Game::make(alloc, &board) {
            Ok(game) => Ok(Engine {
                alloc,
                options: *options,
                game,
                turns: 0,
                last: None,
                kept: KeptLook::none(),
            }),
            Err(_) => Err(Memory),
        }
    }

    /// The game as it stands.
    pub fn game(&self) -> &Game
        ensures { result.now ≡ self.now.game }
    {
        &self.game
    }

    /// How many turns were made so far.
    pub fn turns(&self) -> u64
        ensures { result ≡ self.now.turns }
    {
        self.turns
    }

    /// Answers a request if it uses nothing up. If it may use something up, nothing changed, and
    /// [`Engine::obey_with`] is to be called, with the command that is given here and the request's
    /// arguments. So the command is looked up once. After an error nothing changed.
    #[tactic(auto, unfolding(crate::specs::Requests::reaction))]
    pub fn answer(&mut self, request: &Request) -> Result<Asked, Memory>
        ensures ok { IfOk result (ComesTo self.old request.now self.new) }
        ensures err { OnErr result (self.new ≡ self.old) }
    {
        let Some(command) = Command::named(request.name.as_slice()) else {
            return Ok(Asked::Quiet(Answer::Fail(Fail::UnknownCommand)));
        };
        match command {
            Command::Quiet(quiet) => Ok(Asked::Quiet(self.obey(quiet, request.args.as_slice())?)),
            Command::Using(using) => Ok(Asked::Using(using)),
        }
    }

    /// Obeys a command that may use something up, with these arguments. After an error nothing
    /// changed here, and no turn was taken; a file may have been fetched.
    ///
    /// `read fault` comes only if the file store counted a fault, and `cannot load file` exactly if
    /// the fetched file is none, too long, or no record of a game (SGF FF[4], GM[11]). `Archive`
    /// comes only if the archive counted a fault. With every other answer the counts are as before.
    ///
    /// The answer is brief: a vertex, nothing, or the message of a failure. So a caller that has
    /// room for such an answer before it calls can give the answer of each turn that was taken.
    pub fn obey_with<R: Threads + Sync, F: Shelf, A: Archive, G: Gate + Sync>(
        &mut self,
        rt: &R,
        command: Using,
        args: &[HtpText],
        shelf: &mut F,
        archive: &mut A,
        gate: &G,
    ) -> Result<Answer, EngineError>
        ensures reply { IfOk result
            (λ answer. Answered self.old (F.told shelf.old) (F.told shelf.new)
            (A.told archive.old) (A.told archive.new) command args.now answer self.new) }

        // After an error.
        ensures err { OnErr result (self.new ≡ self.old) }
        ensures in_vain { OnErr result
            (UsesNothing self.old.options (F.told shelf.old) (F.told shelf.new)
            (A.told archive.old) (A.told archive.new)) }
        ensures wants_turn { result ≡ Err EngineError.Archive →
            obeyed self.old nothing_left (Command.Using command) args.now ≡ Err NoTurn }
        ensures no_fetch { result ≡ Err EngineError.Archive →
            Same (F.told shelf.old) (F.told shelf.new) }

        // The causes.
        ensures read_fault { CountsFault (F.faults shelf.old) (F.faults shelf.new)
            (IsReadFault result) }
        ensures archive_fault { CountsFault (A.faults archive.old) (A.faults archive.new)
            (IsArchiveFault result) }
    {
        match command {
            Using::LoadSgf => Ok(self.load(args, shelf)?),
            Using::GenMove => self.generate(rt, args, archive, gate),
        }
    }
}
