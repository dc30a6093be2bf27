//! The quiet commands that change the game: `boardsize`, `clear_board`, `play` and `undo`.

ghost use Rattle.std.specs.Prelude.{Some};
ghost use Rattle.hex_game.specs.Games.{board_of};
ghost use Rattle.hex_engine.specs.Forms.{sizes_of, IsSaidOf};
ghost use Rattle.hex_engine.specs.BoardReplies.{emptied, played, playing, resized, undone};
ghost use Rattle.hex_engine.specs.Requests.{ReactsQuietly};

use super::answers::{Answer, Fail};
use super::forms::{MoveWord, read_colour, read_move, read_sizes};
use super::telling::empty_answer;
use hex_cells::{Colour, Size};
use hex_game::Game;
use htp_line::HtpText;
use std::alloc::Global;

/// `boardsize`, with a number or two.
/// Fails, in order: `syntax error`; `unacceptable size`.
/// Answers nothing; the board of that size is empty, and so is the history.
pub fn resize(alloc: Global, game: &mut Game, args: &[HtpText]) -> Answer
    ensures { ReactsQuietly (resized game.old (sizes_of args.now)) result game.new }
{
    match read_sizes(args) {
        None => Answer::Fail(Fail::Syntax),
        Some((columns, rows)) => resize_to(alloc, game, columns, rows),
    }
}

fn resize_to(alloc: Global, game: &mut Game, columns: u32, rows: u32) -> Answer
    ensures { ReactsQuietly (resized game.old (Some (columns, rows))) result game.new }
{
    if columns != rows {
        return Answer::Fail(Fail::Size);
    }
    match Size::of(columns) {
        None => Answer::Fail(Fail::Size),
        Some(size) => {
            game.clear(size);
            empty_answer(alloc)
        }
    }
}

/// `clear_board`.
/// Answers nothing; board and history are emptied, the size stays.
pub fn clear(alloc: Global, game: &mut Game) -> Answer
    ensures { ReactsQuietly (emptied (board_of game.old).size) result game.new }
{
    let kept = game.board().size();
    game.clear(kept);
    empty_answer(alloc)
}

/// `play`, with a colour and a move.
/// Fails, in order: `syntax error`; `illegal move`.
/// Answers nothing; the history has this step more.
pub fn play(alloc: Global, game: &mut Game, args: &[HtpText]) -> Answer
    ensures { ReactsQuietly (playing game.old args.now) result game.new }
{
    let [colour, what] = args else {
        return Answer::Fail(Fail::Syntax);
    };
    let Some(colour) = read_colour(colour.as_slice()) else {
        return Answer::Fail(Fail::Syntax);
    };
    let size = game.board().size();
    make_move(alloc, game, colour, &read_move(what.as_slice(), size))
}

fn make_move(alloc: Global, game: &mut Game, colour: Colour, word: &MoveWord) -> Answer
    requires { IsSaidOf (board_of game.old).size word.now }
    ensures { ReactsQuietly (played game.old colour word.now) result game.new }
{
    match word {
        MoveWord::Formless => Answer::Fail(Fail::Syntax),
        MoveWord::OffBoard => Answer::Fail(Fail::Illegal),
        MoveWord::Says(what) => match game.play(colour, *what) {
            Err(_) => Answer::Fail(Fail::Illegal),
            Ok(()) => empty_answer(alloc),
        },
    }
}

/// `undo`.
/// Fails: `cannot undo`.
/// Answers nothing; the last step is taken back.
pub fn undo(alloc: Global, game: &mut Game) -> Answer
    ensures { ReactsQuietly (undone game.old game.old.steps) result game.new }
{
    match game.undo() {
        Err(_) => Answer::Fail(Fail::NoUndo),
        Ok(()) => empty_answer(alloc),
    }
}
