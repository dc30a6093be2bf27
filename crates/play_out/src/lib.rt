//! Seeded playouts: a board filled at random, and who is joined on it.
//!
//! **What it is.** A *playout* of a board is named by the player to move, a search's seed and a
//! number `k`. Its *generator* is a Xoshiro256PlusPlus made by `seed_from_u64` of `seed + k` modulo
//! 2^64, and its *words* are that generator's outputs of 64 bits. They shuffle the empty cells,
//! which begin in rising order: for each place `i` from the last down to 1 the next word gives the
//! place `word * (i + 1) / 2^64`, rounded down, and the cells at both change places. The *filled
//! board* has stones on these cells, in turn, the first of the player to move. Its *result* is
//! Black if Black is joined on it, else White.
//!
//! **A caller** asks for the result, `playout(&board, Colour::Black, seed, k)`, for the filled
//! board, `fill(&board, Colour::Black, seed, k)`, or for both, `play(&board, Colour::Black, seed,
//! k)`. [`write_order`] gives the shuffled empty cells alone.
//!
//! **What is proved.** `fill` gives the filled board and `playout` its result, for every board,
//! player, seed and `k`, with the words as `rand_xoshiro` says what that generator answers. No cell
//! of a filled board is empty, each stone of the board stays, and the size stays. The result is
//! Black exactly if a path of Black's stones leads from his first edge to his second.
//!
//! **What is only tested, or not said.** That the words are those of the published generator: tests
//! compare them. No clause says that exactly one player is joined on a filled board, how fast it
//! is, or that each fill of a board is as likely as any other (but see below).
//!
//! **Limits.** Boards of up to 121 cells. No call takes memory, asks anything of its caller or
//! refuses.
//!
//! **Why so.**
//!
//! - A cell is given away as soon as its place is final, in pairs from the last place down: the
//!   player to move gets the even places, and the other player all that he has not. So no colour is
//!   asked, and the filled board's two sets are one pass and one difference. A swap that first asks
//!   whether the places differ takes a fifth more.
//! - Empty cells are listed by fours, from a table of the bits of each number below 16: a third
//!   less work on the largest board than cell by cell.
//! - How near to uniform a fill is: `word * (i + 1) / 2^64` takes each of `i + 1` places for
//!   equally many words, or one more. So with at most 121 cells no place is likelier than another
//!   by 2^-57 of its share. If the words are uniform and independent, each order of the cells is
//!   then as likely as any other but for 2^-51 of its share. Each fill has equally many orders, so
//!   the same holds of fills.
#![tactic(auto)]

mod dealing;
mod fours;
mod order;
mod playouts;

pub use order::{MOST_EMPTIES, write_order};
pub use playouts::{Ending, fill, play, playout};
