//! Reading: the game of a collection.

ghost use Rattle.std.specs.Prelude.{ℕ};
ghost use Rattle.sgf_game.specs.GameOf.{game_of, game_of_line, GameOrMemory};
ghost use Rattle.sgf_game.specs.Lines.{nodes_lent};
ghost use Rattle.sgf_game.specs.Playing.{EndsLast};
ghost use Rattle.sgf_game.specs.Turns.{turns_of};

use super::error::GameError;
use super::line::line_of;
use super::playing::game_of_turns;
use super::setup::start_of;
use super::sizes::{is_hex, size_of};
use super::turns::turns_of;
use hex_game::Game;
use sgf_tree::{Collection, Node};
use std::alloc::Global;

/// The game of a collection: of the first tree alone, along its main line. The line is the nodes of
/// the tree, then those of its first kid, and so on; it ends with the node that holds a move
/// `resign` or `forfeit`. White space at both ends of a value is dropped.
///
/// - `NotHex` comes exactly if the root has no GM, or the first value is not `11`. So it does if
///   the collection has no node at all.
/// - Otherwise `BadSize` comes exactly if the root has SZ, and the first value is neither a number
///   from 1 to 11 without leading zero nor two equal such numbers with `:` between. Without SZ the
///   size is 11.
/// - Otherwise `BadSetup` comes exactly if the root has AE, if a node of the line behind it has AB,
///   AW or AE, or if the start stones are wrong. These are the values of the root's AB and AW: one
///   is no vertex of the board, or two of them name one cell.
/// - Otherwise `BadMove` comes exactly if a move is refused, with the first such. The moves are the
///   values of B and W along the line, counted from 0, also those in the root. Refused is what is
///   neither a vertex of the board nor `swap-pieces`, `resign` or `forfeit`, in either case; what
///   stands in a node with more than one move; and what [`Game::play`] refuses.
/// - Otherwise the game has the start stones and the steps of the moves; `resign` and `forfeit`
///   make none.
///
/// `Memory` may come in place of any answer. The properties are those of SGF FF[4], GM[11]; all
/// others are skipped.
pub fn to_game(alloc: Global, collection: &Collection) -> Result<Game, GameError>
    ensures { GameOrMemory result (game_of collection.now.trees) }
{
    match line_of(alloc, collection) {
        Ok(line) => game_of_line(alloc, &line),
        Err(_) => Err(GameError::Memory),
    }
}

/// The game of a line that begins with its root.
fn game_of_line(alloc: Global, line: &[&Node]) -> Result<Game, GameError>
    requires { (n : ℕ) → EndsLast (turns_of n (nodes_lent line.now)) }
    ensures { GameOrMemory result (game_of_line (nodes_lent line.now)) }
{
    let [root, behind @ ..] = line else {
        return Err(GameError::NotHex);
    };
    if !is_hex(root) {
        return Err(GameError::NotHex);
    }
    let Some(size) = size_of(root) else {
        return Err(GameError::BadSize);
    };
    let Some(start) = start_of(root, behind, size) else {
        return Err(GameError::BadSetup);
    };
    match turns_of(alloc, line, size) {
        Ok(turns) => game_of_turns(alloc, &start, &turns),
        Err(_) => Err(GameError::Memory),
    }
}
