//! The stages of a walker.

/// What a walker does next.
#[derive(Clone, Copy, Debug, PartialEq, Eq)]
pub enum Stage {
    /// It draws a number.
    Drawing,
    /// It looks at the root's tally.
    Rooting,
    /// It looks at the link of the node at which it stands.
    Linking,
    /// It looks at a header word of the block below that node.
    Heading,
    /// It looks at the children of the block.
    Scanning,
    /// It claims a block for the node.
    Claiming,
    /// It writes a word of the held block.
    Writing,
    /// It publishes the held block.
    Publishing,
    /// It adds to the tally of a node of the walk's way.
    Tallying,
    /// It adds to the seen words of the node's block.
    Seeing,
    /// It stores the record of the walk.
    Noting,
    /// It has ended.
    Ended,
}
