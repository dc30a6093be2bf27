//! The words of a search's tree: their layout, what a closed tree is, and the tree that one worker
//! makes.
//!
//! **Nouns.** [`Knobs`] are the numbers of a search, and a [`Shape`] is what it is for: a board,
//! the player to move, the cells that he may play, and the knobs. A *word* is a `u64` of the tree's
//! table. A *node* has four words: move, link, tally and seen. A *block* has the children of a
//! node, behind a header of four words. A *record* has the leaf and the result of a playout. A
//! [`Closed`] tree is a shape with its words, all playouts made. It may hold the *first words*
//! alone, with all that were written: those behind them are 0. [`types`] has the fields of a node
//! and of a header.
//!
//! **A caller** makes a [`Shape`], searches, and asks of the [`Closed`] tree the [`best`] cell or a
//! [`report`] of all. A search begins with the opening words, which [`make_opening`] gives, and
//! writes a new block by [`write_block`]. A reader of words takes them apart by [`node`] and
//! [`block`]; [`layout`] says where each part stands. [`Op`] names the steps of a worker. A search
//! that needs few words of its area is made for the shape with fewer ([`Shape::narrowed`]), and its
//! tree is then one of the whole shape ([`Closed::widened`]).
//!
//! **What is proved.** A closed tree keeps what its name says: complete blocks that share no word,
//! a right record of each playout, exact counts, bounds of growth. `best` is the root's child with
//! most visits and of these the least cell, and `report` has a row for each in rising order of
//! cells. A tree that is widened has the same words, and zeros behind them. Each reading gives the
//! fields of the layout, and each write the words of its block and no others. Laws say that the
//! opening words are a function of the setting ([`opening_words_are_told`]), that a link and its
//! node's board tell the linked block ([`told_blocks_are_linked`]), and that words show one tree
//! ([`words_show_one_tree`]). The definitions in `specs/` are what the crates above are proved
//! against: the layout, the tree that words show, and the search of one worker.
//!
//! **Where to look.** specs/ has the layout (Settings, Words, Blocks, Writing, Opening), the closed
//! tree (Paths, Complete, Records, Counts, Growth, Closing, Roots, Told, Areas) and the walk
//! (Trees, Walks, Sequence, Descents). proofs/ has a folder for each kind of law.
//!
//! **What is only tested, or not said.** How strong a tree plays; that `report` and `make_opening`
//! get their memory.
//!
//! **Limits.** 1 to 64 workers, 1 to 1,000,000 playouts, 1,024 to 16,777,216 words of blocks,
//! blocks of at most 488 words. Only `report` and `make_opening` take memory.
//!
//! **Why so.**
//!
//! - That words show a tree (`IsTreeOf`) says that some list of linked blocks is named by their
//!   links and shows that tree; the list is no part of the words.
//! - In the sequential definition a leaf gets its block before the walk's updates, and is looked
//!   for again: the same walk, since a new block changes no count and its first child has no visit.
//! - One call, [`make_opening`], makes the opening words for the plain search, the shared tree and
//!   the simulation, and a law says that no others are opening words.
//! - Each linked block has a node (`HaveNodes`): kept by a search, and no part of the closed tree,
//!   which an audit of words doesn't ask. The end of the root's block is read from the words
//!   (`root_end`).
#![tactic(auto)]

mod closed_tree;
mod laws;
pub mod layout;
mod limits;
mod opening;
mod readings;
mod roots;
mod settings;
mod shapes;
mod steps;
pub mod types;
mod writing;

pub use closed_tree::Closed;
pub use laws::{opening_words_are_told, told_blocks_are_linked, words_show_one_tree};
pub use limits::words_stand_where_they_are_drawn;
pub use opening::make_opening;
pub use readings::{block, cell_of, node, visits_of, wins_of};
pub use roots::{Memory, Row, best, report};
pub use settings::{Knobs, LEAST_WORDS, MOST_EXPAND, MOST_PLAYOUTS, MOST_WORDS, MOST_WORKERS};
pub use shapes::Shape;
pub use steps::Op;
pub use writing::{write_block, write_moves};
