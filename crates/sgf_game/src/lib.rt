//! Games of Hex as SGF records, both ways.
//!
//! **What it is.** A record is an SGF collection (crate sgf_tree) that tells a game of Hex (SGF
//! FF[4], GM[11]). Its *main line* is the nodes of the first tree, then those of its first kid, and
//! so on. The *root* is the first node; GM, SZ, AB and AW there say that it is Hex, the size and
//! the start stones. A *move* is a value of B or W along the line, and a *turn* is a move as it is
//! read: a step of a game (crate hex_game), the end of the line (`resign`, `forfeit`), or nothing.
//!
//! **A caller.** [`to_game`] makes a game of a collection, as `parse` reads it, [`read_game`] one
//! of a record's bytes, [`from_game`] the record of a game, and [`game_text`] the text of this.
//!
//! **What is proved.** `to_game` answers exactly the game of the collection, or exactly its
//! refusal, by one definition on lists (`specs/GameOf.antt`): the main line cut behind the node
//! that ends it, the root's values, the turns, and the first turn that is refused. `from_game`
//! answers exactly the record of the game (`specs/Record.antt`), whose game by that definition is
//! the same game, and which has a text: that of `game_text`, which `read_game` reads as the game.
//! `Memory` may come in place of every answer.
//!
//! **What is only tested, or not said.** That calls succeed with ample memory, and the time: each
//! value is read a few times, so it is linear in the collection's size.
//!
//! **Limits.** Variations other than the main line, point rectangles as `a1:b2`, and moves in Go's
//! coordinates are not read. Other programs may spell the swap in another way; such a move is
//! refused.
//!
//! **Why so.**
//!
//! - [`GameError`] has no numbered variants, since one of them has a field. A collection without a
//!   node, which no text has, is refused as no game of Hex, so [`to_game`] asks nothing of its
//!   caller.
#![tactic(auto)]

mod error;
mod line;
mod playing;
mod reading;
mod records;
mod setup;
mod sizes;
mod turns;
mod values;
mod writing;

pub use error::GameError;
pub use reading::to_game;
pub use records::{game_text, read_game};
pub use writing::from_game;
