//! SGF text as trees, both ways.
//!
//! **What it is.** SGF (smart game format, FF[4]) is text for games. A *collection* is one or more
//! *trees*. A tree is a line of *nodes* and the *kids* that go on from its end, which are trees
//! again. A node has *properties*: a name of capital letters, and *values*, which are bytes.
//! Nothing here knows a game.
//!
//! **A caller.** [`parse`] makes a [`Collection`] of bytes, whose parts `as_slice` lends. Each part
//! is made by `of` from a vector, and [`print`] gives the text of a collection.
//!
//! **What is proved.** The grammar is a relation between trees and bytes (`specs/Grammar.antt`).
//! `parse` answers exactly the collection that the bytes are a text of, up to 64 trees deep;
//! `TooDeep` and `NotSgf` come exactly when its page says, and the place of a refusal is told from
//! the grammar alone (`specs/Places.antt`). `print` gives exactly the text of
//! `specs/Printing.antt`, which `parse` reads again as the same collection. Bytes are a text of one
//! collection at most ([`grammar_laws`]). `Memory` may come in place of every answer.
//!
//! **What is only tested, or not said.** That calls succeed with ample memory, and the time: a byte
//! is read once, so it is linear in the length. That the grammar is SGF's is for a reader to judge.
//!
//! **Limits.** Values are kept byte for byte but for the backslashes that the grammar drops; the
//! conversion of white space and line breaks in text values is not done. Lower-case letters in
//! names and text before the first parenthesis are refused. The reader holds its open trees in a
//! list and does not recurse; `print`, and dropping a collection, recurse as deep as its trees
//! nest.
//!
//! **Why so.**
//!
//! - A place with 65 open trees is said from the grammar alone, with no second scanner: each
//!   collection whose text begins with these bytes is deeper than 64.
//! - [`SgfError`] has no numbered variants, since one of them has a field.
#![tactic(auto)]

mod error;
mod laws;
mod lists;
mod parsing;
mod printing;
mod reading;
mod trees;
mod want;

pub use error::SgfError;
pub use laws::grammar_laws;
pub use lists::{Node, Nodes, Prop, Props, SgfText, Values};
pub use parsing::parse;
pub use printing::print;
pub use reading::is_white_space;
pub use trees::{Collection, Tree, Trees};
pub use want::Memory;
