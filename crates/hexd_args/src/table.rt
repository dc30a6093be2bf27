//! The options of hexd, a line each. The code and the definitions of specs/Table.antt and
//! specs/Values.antt read them here; laws.rt says what stands in them, and tools/check_manual
//! compares the documents with them.

use hex_cells::Size;
use option_words::{LongNumberOption, NumberOption};
use tree_words::{LEAST_WORDS, MOST_EXPAND, MOST_PLAYOUTS, MOST_WORDS, MOST_WORKERS};
use uct_table::MOST_WEIGHT;

/// `--size`: the cells on a side of the first board.
pub const SIZE: NumberOption = ("size", "11", 1, Size::MAX);

/// `--workers`: how many workers search.
pub const WORKERS: NumberOption = ("workers", "1", 1, MOST_WORKERS);

/// `--playouts`: how many playouts a search makes.
pub const PLAYOUTS: NumberOption = ("playouts", "10000", 1, MOST_PLAYOUTS);

/// `--seed`: where the random numbers begin.
pub const SEED: LongNumberOption = ("seed", "0", 0, u64::MAX);

/// `--words`: the room of the search tree in words.
pub const WORDS: NumberOption = ("words", "4194304", LEAST_WORDS, MOST_WORDS);

/// `--expand`: the visits at which a node gets its children.
pub const EXPAND: NumberOption = ("expand", "8", 1, MOST_EXPAND);

/// `--weight`: how much exploration weighs in a score, in 256th parts.
pub const WEIGHT: NumberOption = ("weight", "180", 0, MOST_WEIGHT);

/// `--hsearch`: whether connections are searched for, `on` or `off`; and its default.
pub const HSEARCH: (&'static str, &'static str) = ("hsearch", "on");

/// `--solve`: how many positions a move's search for a certificate may enter; with 0 there is none.
pub const SOLVE: NumberOption = ("solve", "0", 0, 10_000_000);

/// `--look`: how many nodes the look-ahead of a move may judge; with 0 there is none.
pub const LOOK: NumberOption = ("look", "0", 0, 1_000_000);

/// `--steps`: how many steps the schedule of a simulation has.
pub const STEPS: NumberOption = ("steps", "10000", 0, 1_000_000);

/// `--budget`: how many positions the solver may enter.
pub const BUDGET: LongNumberOption = ("budget", "1000000", 1, u64::MAX);

/// `--best`: whether the solver names the cell that it thinks best if it is unknown who wins, `on`
/// or `off`; and its default.
pub const BEST: (&'static str, &'static str) = ("best", "off");

/// `--trace`: the name of the file for traces. By default there is none.
pub const TRACE: &str = "trace";
