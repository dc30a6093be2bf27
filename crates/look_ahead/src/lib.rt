//! A look ahead: one of the given cells, chosen by a best-first search over circuits.
//!
//! **Nouns.** A *node* is a board that was judged, with who moves next on it. It is *won* or *lost*
//! for the player to move, or *open* with a *value*, from 0, as good as lost, to [`WON`]. An open
//! node has *kids*: the cells that all threats of the other player have in common, each with a
//! *prior*, its part of the currents of both circuits, and with a node as soon as the search came
//! there.
//!
//! **A caller** makes a [`Look`] with so many workers and asks it to [`Look::choose`] among the
//! cells of a mustplay region. What it gets ([`Looked`]) has the cell, and a row for each of those
//! cells, with its *line*: how the search goes on after it.
//!
//! **How it goes.** A walk goes from the root to a node that is new, always to the kid with the
//! best sum of its mean value and its prior, which counts less with each visit. On its board dead
//! cells are filled, and those that a player captured. There it makes the mover's links, in which
//! an entry between his edges wins, and otherwise the other's, in which a full one loses, and so do
//! semi ones without a cell in common. Both are those of the node above with a few stones more
//! (`live_links`). Else it compares the totals of both circuits. Back up the path each node gets
//! the value, from its own side.
//!
//! **Batches.** With W workers up to 2·W walks, and at most 64, go down one after the other. Their
//! boards are judged in W threads, in each by a *judge*, and then they go up in the order in which
//! they went down. Until then each counts as lost for who moves by it, so that the next ones
//! go elsewhere, and none goes to a kid that is being judged. A batch of one is a walk by itself.
//!
//! **From search to search.** If a root follows the last one by one or two moves, made in turn, the
//! nodes below that board are kept, as they are, and the root itself is judged anew, on the cells
//! that it is given. They count towards the budget.
//!
//! **What is proved.** What the rows say (specs/Looked.antt): they are of the given cells, each
//! once, in rising order, and who is known to win after a stone does; the moves of a row's line
//! can be made in turn after its cell; the cell that is chosen is that of a row of the highest
//! rank; it has the root, and no more nodes than the budget. Each call is safe and ends, and
//! refuses only if memory runs out.
//!
//! **What is only tested, or not said.** How strong the choice is: of a row's walks and value
//! nothing is proved, nor that a line goes on by most walks. Links need no proof: what the search
//! takes for won or lost by them is told as known only if a report of H-search shows it too. That
//! for each number of workers the same is found in each run, is tested. It rests on what a judge
//! may do: it reads the links that are kept, which no thread writes, and writes what it has alone.
//!
//! **Limits.** As many nodes as the budget. Each takes its own size and up to 121 kids of 12 bytes:
//! before the first walk, for the first 10,000 of them. The links of the 320 nodes that were used
//! last are kept, and made anew where they are gone: room for them, at most 190 MB, is made before
//! the first walk too. Each thread takes up to 5 MB for the links that are made. In the end each
//! cell that is taken for won or lost has one report of H-search, one cell after the other. All of
//! that stays for the next search.
//!
//! **Why so.**
//!
//! - Values are whole numbers that are not negative: the other side's is what is left of [`WON`].
//! - Sums stop at the greatest number, which none comes near: so no proof rests on their size.
//! - Every loop is a `for`, which needs no proof that it ends. A walk that meets no new node
//!   decides one, or goes on; there are at most four batches for each node of the budget.
//! - A batch has threads of its own, and no queue: a board takes much longer than a thread takes to
//!   start. Where none can be started, boards are judged in turn.
//! - The constants are by trial, in matches on boards of 11 by 11.
#![tactic(auto)]

mod batches;
mod choosing;
mod filling;
mod judges;
mod keeping;
mod lines;
mod nodes;
mod pool;
mod refusals;
mod rows;
mod searches;
mod showing;
mod telling;
mod values;

pub use refusals::Memory;
pub use rows::{LookRow, Looked, Outcome};
pub use searches::{Look, Root};
pub use values::WON;
