//! What an audit answers.

ghost use Rattle.std.specs.Prelude.{◌≡◌};
ghost use Rattle.trace_audit.specs.Numbers.{flaw_number};

/// What an audit finds in bytes.
#[derive(Clone, Copy, Debug, PartialEq, Eq)]
pub enum Audit {
    /// The bytes are the texts of so many closed trees, one after another.
    Yes {
        /// How many texts there are.
        trees: u32,
    },
    /// A text is not that of a closed tree, and all texts before it are.
    No {
        /// How many texts stand before it.
        tree: u32,
        /// Its first flaw.
        why: Flaw,
    },
}

/// What a text lacks, in the order in which it is looked for.
#[derive(Clone, Copy, Debug, PartialEq, Eq)]
pub enum Flaw {
    /// It is cut short, has another name, a field out of its range, stones that meet or
    /// lie off the board, no allowed cell or one that is not empty, or too few or too many words.
    BadForm = 1,
    /// A linked block is not complete, is not named by its parent's link, or shares a word with
    /// another.
    Block = 2,
    /// A playout has no record, or one whose leaf is no node below the root, or whose result is not
    /// that of the playout.
    Record = 3,
    /// The visits, wins, seen visits or seen wins of a node are not those of the records.
    Count = 4,
    /// NEXT is too far past the area's end, or TICKET is too low or too high.
    End = 5,
    /// The tree has not grown as the search's numbers say.
    Growth = 6,
}

impl Flaw {
    /// The number of the flaw, from 1 to 6.
    pub fn number(self) -> u8
        ensures { result ≡ flaw_number self }
    {
        self as u8
    }
}
