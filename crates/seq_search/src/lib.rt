//! The search of one worker, over a plain vector of words: the definition's plain program, and what
//! a team of one runs.
//!
//! **Nouns.** A *walk* goes from the root down to a *leaf*, a node without a block: at each node
//! with a block to the child that Choice takes. If the leaf has as many visits as the expand number
//! says, an empty cell on its board and room in the area, it gets its block first, and the walk
//! goes on to a child. Then comes the *playout* from the leaf's board, and its *adds*, of which one
//! is the playout's record. The others go to the tally of each node on the way, and to the seen
//! word of each node of their blocks whose cell holds a stone of its mover.
//!
//! A [`Gate`] is what a worker passes once, between its first looks and its first add.
//!
//! **A caller** makes a `Shape` and calls [`search_alone`] with a gate, or [`plain_search`]:
//! `plain_search(rt.alloc(), &shape)?`.
//!
//! **What is proved.** The answer has this shape, and it is a closed tree, as its type keeps. The
//! tree that its words show is that of the sequential search: the fold of one walk over all playout
//! numbers, which has no words, links or blocks. The only refusal is `Memory`.
//!
//! **What is only tested, or not said.** Speed, and that the gate is passed once. That the vector
//! gets its memory.
//!
//! **How it is proved.** The words are read as a list of linked blocks, and one walk on these
//! blocks is one walk on the tree. `specs/` says what stands between the steps of a walk: `Holds`
//! that the words hold the tree of their blocks, `IsSearched` that their counts and records are
//! those of the walks made so far, `Searched` both with the tree.
//!
//! **Limits.** Those of a `Shape`. One allocation of all words; a walk takes no memory.
//!
//! **Why so.**
//!
//! - After a new block a walk looks for its leaf again from the root. It could go on from the old
//!   leaf; that costs one descent for each block made, which are few, and the code and its proof
//!   have one way down.
//! - A node's seen word is added to also if the add is 0: whether a cell of the full board has a
//!   stone of the mover can't be guessed, so a branch would be taken wrongly at every other node.
//! - `choose` keeps a bar beside the best score, as a walker of a team does, so that not each child
//!   asks whether its products fit. It counts words, since from a place a node's first word would
//!   be computed at each child. Both together save 3 to 4 % of a search's instructions.
//! - All walks of a search use one record of their way in turn, since to clear and to copy one for
//!   each walk took a twelfth of the time.
#![tactic(auto)]

mod adding;
mod choosing;
mod descending;
mod expanding;
mod gates;
mod reaching;
mod search;

pub use gates::{Gate, OpenGate};
pub use search::{plain_search, search_alone};
