//! From the bytes of a record to its game, and back.

ghost use Rattle.std.specs.Prelude.{◌≡◌, IfOk};
ghost use Rattle.sgf_tree.specs.Printing.{trees_print};
ghost use Rattle.sgf_game.specs.Record.{record_of};
ghost use Rattle.sgf_game.specs.RecordOf.{IsGameOf, IsRecordOf};

use super::error::GameError;
use super::reading::to_game;
use super::writing::from_game;
use hex_game::Game;
use sgf_tree::{Memory, SgfError, SgfText, parse, print};
use std::alloc::{AllocError, Global};

/// The game of which the bytes are a record; none exactly if they are no text of a collection (SGF
/// FF[4]), or nest too deep, or are a record of no game, as [`to_game`] refuses it.
pub fn read_game(alloc: Global, bytes: &[u8]) -> Result<Option<Game>, AllocError>
    ensures { IfOk result (λ read. IsGameOf bytes.now read) }
{
    let collection = match parse(alloc, bytes) {
        Ok(collection) => collection,
        Err(SgfError::Memory) => return Err(AllocError),
        Err(_) => return Ok(None),
    };
    match to_game(alloc, &collection) {
        Ok(game) => Ok(Some(game)),
        Err(GameError::Memory) => Err(AllocError),
        Err(_) => Ok(None),
    }
}

/// The text of the game's record (SGF FF[4]), without white space between tokens: what
/// [`from_game`] makes, printed. It refuses only if memory runs out.
pub fn game_text(alloc: Global, game: &Game) -> Result<SgfText, Memory>
    ensures text { IfOk result (λ bytes. bytes ≡ trees_print (record_of game.now)) }
    // So it is read again as the same game.
    ensures record { IfOk result (λ bytes. IsRecordOf bytes game.now) }
{
    let collection = from_game(alloc, game)?;
    print(alloc, &collection)
}
