//! Traces of closed trees, and their audit.
//!
//! **Nouns.** The *trace* of a turn are the bytes that its closed tree is written as: a name of
//! eight bytes, fields that tell the shape, and the words of the tree that are below NEXT. It is
//! empty if the turn has no closed tree. A [`TraceArchive`] is an archive over a link, to which it
//! writes the trace of each turn that it takes.
//!
//! **A caller** makes the archive over a link of its own, hands it to whoever makes turns, and
//! takes the link back at the end:
//!
//! ```text
//! let mut archive = TraceArchive::make(alloc, FileLink::new(rt, name))?;
//! archive.take(turn)?;
//! let link = archive.into_link();
//! ```
//!
//! Who has such bytes asks [`audit`]: `Yes` with how many trees they tell, or `No` with the first
//! text that is not that of a closed tree and its first [`types::Flaw`]. It makes each playout
//! again and needs no search.
//!
//! **What is proved.** If the link tells what it was given, a turn that was taken gave it exactly
//! its trace more. A fault comes only if the count of the link's writes at fault rose, and then it
//! was given a prefix of the trace that is not all of it. What is read from the text of a closed
//! tree is a closed tree again ([`traces_tell_closed_trees`]): the words that are not written count
//! as 0. `audit` answers `Yes` only if the bytes are the texts of so many closed trees, one after
//! another. It answers `No` only if behind the texts of so many closed trees stands a text that has
//! the flaw and none before it. It is then no text of a tree, no list of blocks is linked by its
//! words, or such a list is and the point of the closed tree fails. Bytes have one verdict
//! ([`bytes_have_one_verdict`]), so that `audit` answers `Yes` exactly if the bytes are the texts
//! of closed trees.
//!
//! **What is only tested, or not said.** That the archive gets the memory for its buffer.
//!
//! **Limits.** `make` takes memory for a buffer of [`BUFFER_BYTES`] bytes, and `audit` for one text
//! at a time. That is nine bytes for each word that the text has, and not for those that it claims,
//! but for 1,024 of the area at least; and a site for each linked block. Its time goes with the
//! words and the playouts of the texts, and not with the depth of their trees. An audit takes at
//! most [`MOST_BYTES`] bytes. A trace has at most 128 bytes and eight for each word of the tree.
//!
//! **Why so.**
//!
//! - The audit takes memory by the words that a text has. Behind these all words are 0, and no
//!   point of the closed tree looks at one of them. So a text is audited as a tree whose area ends
//!   with its words (`IsCut`), and the first point that fails is that of the whole tree. The area
//!   is never shorter than 1,024 words.
//! - Words are read from the text itself (`Words`), since a copy would hold the largest input
//!   twice. The price is a look at the input's end for each word: 0.29 s for 0.26 of a trace of
//!   100,000 playouts.
//! - The index of the blocks has one slot for four words: a block has at least four, so two that
//!   begin within four words share one, and the second is refused like any two that do.
//! - Sums are handed up block by block. To go each playout's way from its leaf to the root would
//!   cost as many steps as the way has nodes, so a small text of very deep playouts would take
//!   long. A playout is added to its leaf's block alone; then each block, from the last word down,
//!   hands its sum to its parent and its parent's block. What it hands to a seen word is found
//!   without the playouts. Each cell of a filled board has a stone of one player, so the parent's
//!   block sees a cell in those playouts in which this one does not, and the wins are turned.
//! - `Ending` is made from `fill` and not by `play`, since only the contract of `fill` says that no
//!   cell is empty. The words are passed once, from low to high: a block lies above its parent, so
//!   it is entered in a table before it is reached.
#![tactic(auto)]

mod archives;
mod auditing;
mod blocks;
mod counts;
mod ends;
mod entries;
mod fields;
mod gains;
mod growth;
mod handing;
mod index;
mod laws;
mod linking;
mod parsing;
mod places;
mod recording;
mod refusals;
mod sites;
mod texts;
pub mod types;
mod word_list;
mod zeros;

pub use archives::TraceArchive;
pub use auditing::{MOST_BYTES, audit};
pub use laws::{
    bytes_have_one_verdict, traces_are_texts_of_closed_trees, traces_tell_closed_trees,
};
pub use refusals::Memory;
pub use texts::BUFFER_BYTES;
