//! What a command line asks for.

use hex_cells::Size;
use hex_io::Word;
use tree_words::Knobs;

/// What the program does.
#[derive(Clone, Copy, Debug, PartialEq, Eq)]
pub enum Mode {
    /// It plays a session over standard input and output. Its word is `htp`.
    Htp,
    /// It checks a certificate. Its word is `check`.
    Check,
    /// It writes a certificate in version 2 if it is of version 1. Its word is `migrate`.
    Migrate,
    /// It audits traces of closed trees. Its word is `audit`.
    Audit,
    /// It simulates a schedule of a search's workers. Its word is `sim`.
    Sim,
    /// It searches a large position of its own. Its word is `bench`.
    Bench,
    /// It tells who wins the position of a record. Its word is `solve`.
    Solve,
}

/// The mode, and the value of each option, given or default. What an option means, its default and
/// its range stand in the constant of its name in src/table.rt, and the numbers in
/// [`options_are_those_of_the_manual`](crate::options_are_those_of_the_manual).
///
/// An option that the mode does not use was read and tested all the same, and has no effect.
#[derive(Debug, Drop)]
pub struct Options {
    /// What the program does.
    pub mode: Mode,
    /// `SIZE`.
    pub size: Size,
    /// `WORKERS`, `PLAYOUTS`, `SEED`, `WORDS`, `EXPAND` and `WEIGHT`.
    pub knobs: Knobs,
    /// Whether `HSEARCH` is on.
    pub hsearch: bool,
    /// `SOLVE`.
    pub solve: u32,
    /// `LOOK`.
    pub look: u32,
    /// `STEPS`.
    pub steps: u32,
    /// `BUDGET`.
    pub budget: u64,
    /// Whether `BEST` is on.
    pub best: bool,
    /// `TRACE`: at least one byte, if there is one.
    pub trace: Option<Word>,
}
