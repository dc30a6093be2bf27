//! Games from files: the command `loadsgf`.

ghost use Rattle.std.specs.Prelude.{◌≡◌, [], ◌∷◌, IfOk, OnErr};
ghost use Rattle.hex_io.specs.Causes.{CountsFault};
ghost use Rattle.hex_engine.specs.Faults.{IsReadFault};
ghost use Rattle.hex_engine.specs.Calls.{AnswersLoad, FetchesInVain};
ghost use Rattle.hex_engine.specs.Requests.{IsBrief};
ghost use Rattle.hex_engine.specs.Supply.{loads_only};
ghost use Rattle.hex_engine.specs.Uses.{IsReadAs, Loading};

use super::answers::{Answer, Fail, Memory};
use super::forms::file_name;
use super::state::Engine;
use super::telling::empty_answer;
use hex_game::Game;
use hex_io::{Shelf, ShelfError};
use htp_line::HtpText;
use sgf_game::read_game;
use std::alloc::Global;

/// What comes of a file that is asked for.
#[derive(Drop)]
pub enum Loaded {
    /// Its fetch was at fault.
    Unread,
    /// There is no such file, or it is too long, or no record of a game.
    Refused,
    Loads(Game),
}

impl Engine {
    /// `loadsgf`, with a file's name.
    /// Fails, in order: `syntax error`; `read fault`; `cannot load file`.
    /// Answers nothing; the game is the record's.
    pub(super) fn load<F: Shelf>(
        &mut self,
        args: &[HtpText],
        shelf: &mut F,
    ) -> Result<Answer, Memory>
        ensures reply { IfOk result (λ answer. AnswersLoad
            self.old args.now (F.told shelf.old) (F.told shelf.new) answer self.new) }
        ensures brief { IfOk result IsBrief }
        ensures err { OnErr result (self.new ≡ self.old) }
        ensures in_vain { OnErr result (FetchesInVain (F.told shelf.old) (F.told shelf.new)) }
        ensures read_fault { CountsFault (F.faults shelf.old) (F.faults shelf.new)
            (IsReadFault result) }
    {
        let Some(name) = file_name(args) else {
            return Ok(Answer::Fail(Fail::Syntax));
        };
        match load_game(self.alloc, shelf, name)? {
            Loaded::Unread => Ok(Answer::Fail(Fail::ReadFault)),
            Loaded::Refused => Ok(Answer::Fail(Fail::NoLoad)),
            Loaded::Loads(game) => {
                self.kept.forget();
                self.game = game;
                Ok(empty_answer(self.alloc))
            }
        }
    }
}

/// Fetches the file of that name, and reads its game.
fn load_game<F: Shelf>(alloc: Global, shelf: &mut F, name: &str) -> Result<Loaded, Memory>
    ensures came { IfOk result
        (λ loaded. Loading (F.told shelf.old) (F.told shelf.new)
        (loads_only (record { name = name.now; what = loaded } ∷ [])) []) }
    ensures vain { OnErr result (FetchesInVain (F.told shelf.old) (F.told shelf.new)) }
    ensures read_fault { CountsFault (F.faults shelf.old) (F.faults shelf.new)
        (result ≡ Ok Loaded.Unread) }
{
    match shelf.fetch(alloc, name) {
        Ok(Some(bytes)) => read_file(alloc, &bytes),
        Ok(None) => Ok(Loaded::Refused),
        Err(ShelfError::TooLong) => Ok(Loaded::Refused),
        Err(ShelfError::Fault) => Ok(Loaded::Unread),
        Err(ShelfError::Memory) => Err(Memory),
    }
}

/// What comes of a file's bytes.
fn read_file(alloc: Global, bytes: &[u8]) -> Result<Loaded, Memory>
    ensures { IfOk result (IsReadAs bytes.now) }
{
    match read_game(alloc, bytes)? {
        Some(game) => Ok(Loaded::Loads(game)),
        None => Ok(Loaded::Refused),
    }
}
