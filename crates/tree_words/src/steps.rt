//! The steps of a worker.

/// A step of a worker on the words of a tree.
#[derive(Clone, Copy, Debug, PartialEq, Eq)]
pub enum Op {
    /// Adds 1 to TICKET: the old value is the number of the next playout.
    Draw,
    /// Reads a word.
    Look(u32),
    /// Adds so many words to NEXT: the old value is the first word of the claimed block.
    Claim(u32),
    /// Stores a value in a word of the claimed block.
    Write(u32, u64),
    /// Puts the claimed block's first word into a link that is 0.
    Publish(u32, u32),
    /// Adds a visit to a tally or a seen word, and a win if the flag says so.
    Add(u32, bool),
    /// Stores the record of a playout.
    Note(u32, u64),
    /// No step is left.
    Done,
}
