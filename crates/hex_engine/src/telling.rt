//! The quiet commands that leave the game as it is: each answers a text.

ghost use Rattle.std.specs.Prelude.{◌≡◌, [], IfOk, codes};
ghost use Rattle.std.specs.Option.{option_map_or};
ghost use Rattle.hex_cells.specs.Colours.{colour_word};
ghost use Rattle.hex_board.specs.Joined.{winner_of};
ghost use Rattle.sgf_game.specs.Record.{record_of};
ghost use Rattle.sgf_tree.specs.Printing.{trees_print};
ghost use Rattle.hex_engine.specs.Commands.{all_names};
ghost use Rattle.hex_engine.specs.Picture.{picture};
ghost use Rattle.hex_engine.specs.QuietReplies.{knowing};
ghost use Rattle.hex_engine.specs.Replies.{Done};
ghost use Rattle.hex_engine.specs.Requests.{IsBrief, Tells};

use super::answers::{Answer, Fail, Memory};
use super::commands::{Command, command_list};
use super::picture::board_text;
use hex_board::Board;
use hex_game::Game;
use htp_line::HtpText;
use sgf_game::game_text;
use std::alloc::Global;

/// A success without text.
pub fn empty_answer(alloc: Global) -> Answer
    ensures tells { Tells (Done []) result }
    ensures brief { IsBrief result }
{
    Answer::Done(HtpText::of(Vec::new(alloc)))
}

/// A success with this text; `name`, `protocol_version`, `version` and `winner` answer one.
pub fn tell(alloc: Global, text: &[u8]) -> Result<Answer, Memory>
    ensures { IfOk result (Tells (Done text.now)) }
{
    Ok(Answer::Done(HtpText::of(text.to_vec(alloc)?)))
}

/// The text of `winner`.
pub fn name_of_winner(board: &Board) -> &'static [u8]
    ensures { result.now ≡ option_map_or colour_word (winner_of board.now) (codes "none") }
{
    match board.winner() {
        None => b"none",
        Some(colour) => colour.word(),
    }
}

/// `known_command`, with a word. Fails: `syntax error`. Answers `true` exactly if a command has
/// this name, else `false`.
pub fn know(alloc: Global, args: &[HtpText]) -> Result<Answer, Memory>
    ensures { IfOk result (Tells (knowing args.now)) }
{
    let [word] = args else {
        return Ok(Answer::Fail(Fail::Syntax));
    };
    match Command::named(word.as_slice()) {
        Some(_) => tell(alloc, b"true"),
        None => tell(alloc, b"false"),
    }
}

/// `list_commands`.
/// Answers the names of all commands, each on a line.
pub fn list(alloc: Global) -> Result<Answer, Memory>
    ensures { IfOk result (Tells (Done all_names)) }
{
    Ok(Answer::Done(HtpText::of(command_list(alloc)?)))
}

/// `printsgf`.
/// Answers the record of the game (SGF FF[4]), without white space.
pub fn print_game(alloc: Global, game: &Game) -> Result<Answer, Memory>
    ensures { IfOk result (Tells (Done (trees_print (record_of game.now)))) }
{
    let Ok(text) = game_text(alloc, game) else {
        return Err(Memory);
    };
    tell(alloc, text.as_slice())
}

/// `showboard`.
/// Answers the board as text.
pub fn show(alloc: Global, board: &Board) -> Result<Answer, Memory>
    ensures { IfOk result (Tells (Done (picture board.now))) }
{
    Ok(Answer::Done(HtpText::of(board_text(alloc, board)?)))
}
