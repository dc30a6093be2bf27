//! A new block: its claim, its words and its link.

ghost use Rattle.std.specs.Prelude.{◌≡◌, ◌+◌, ◌-◌, ◌<◌, ◌≤◌, ◌^◌, length, slice_index};
ghost use Rattle.play_out.specs.Fills.{empties_of};
ghost use Rattle.tree_words.specs.Sequence.{size_below};
ghost use Rattle.walker.specs.Machine.{asks_block, claimed, linked_now, own_block, state_in};
ghost use Rattle.walker.specs.Machine.{word_of_block, written};
ghost use Rattle.walker.specs.NewNodes.{LendsNewNodes, with_nodes};

use super::PAST_WORDS;
use super::machine::Walker;
use super::new_nodes::NewNodes;
use super::stages::Stage;
use tree_words::layout::{
    COUNT_WORD, HEADER_WORDS, HIGH_EMPTIES_SHIFT, HIGH_EMPTIES_WORD, LINK_WORD, LOW_EMPTIES_WORD,
    MOST_BLOCK_WORDS, MOST_NODES, NODE_WORDS, PLACE_UNIT,
};

impl Walker {
    // The number of empty cells where the walk stands.
    fn empty_count(&self) -> u32
        ensures value { result ≡ length (empties_of self.now.board) }
        ensures range { result ≤ MOST_NODES }
    {
        // The size bounds the board's cells.
        self.board.keeps();
        self.board.empties().count()
    }

    /// The number of words of a block below the node.
    pub(crate) fn block_words(&self) -> u32
        ensures value { result ≡ size_below (state_in self.now) }
        ensures range { result ≤ MOST_BLOCK_WORDS }
    {
        HEADER_WORDS as u32 + NODE_WORDS as u32 * self.empty_count()
    }

    /// Whether the node asks for a block: it was loaded with as many visits as the expand number
    /// says, its board has an empty cell, and no claim went past the area's end.
    pub(crate) fn asks(&self) -> bool
        ensures { result ≡ asks_block self.now }
    {
        !self.full && self.shape.knobs().expand <= self.visits && 0 < self.empty_count()
    }

    /// After a Claim: inside the area the block is held and is written next, else the node is the
    /// leaf.
    #[tactic(auto, unfolding(crate::specs::Machine::claimed))]
    pub(crate) fn claim(&mut self, answer: u64)
        requires node { self.old.node < PAST_WORDS }
        requires answer { answer < PAST_WORDS }
        ensures { self.new ≡ claimed self.old answer }
    {
        let past = answer + u64::from(self.block_words());
        if past <= u64::from(self.shape.total()) {
            self.stage = Stage::Writing;
            self.start = answer as u32;
            self.at = self.start;
        } else {
            self.full = true;
            self.play_out();
        }
    }

    /// The word of the held block that is written next.
    #[inline(never)]
    pub(crate) fn word_to_write(&self) -> u64
        ensures { result ≡ word_of_block (own_block self.now) (self.now.at - self.now.start) }
    {
        let bits = self.board.empties().bits();
        match self.at.saturating_sub(self.start) as usize {
            0 => u64::from(self.node),
            LOW_EMPTIES_WORD => (bits % (1 << HIGH_EMPTIES_SHIFT)) as u64,
            HIGH_EMPTIES_WORD => (bits >> HIGH_EMPTIES_SHIFT) as u64,
            COUNT_WORD => u64::from(self.empty_count()),
            i => self.move_to_write(i - HEADER_WORDS),
        }
    }

    // Word i of those behind the header: a move if it begins a node, else 0.
    fn move_to_write(&self, i: usize) -> u64
        requires { i < 2 ^ 32 }
        ensures { result ≡ word_of_block (own_block self.now) (HEADER_WORDS + i) }
    {
        if i % NODE_WORDS != 0 {
            return 0;
        }
        let place = (i / NODE_WORDS) as u32;
        PLACE_UNIT * u64::from(place) + u64::from(self.cell_of(place))
    }

    // The empty cell of a place; 0 past the last.
    fn cell_of(&self, place: u32) -> u32
        ensures value { result ≡ slice_index (empties_of self.now.board) place }
        ensures range { result < 2 ^ 8 }
    {
        // The size bounds the board's cells.
        self.board.keeps();
        if place < self.empty_count() {
            self.board.empties().nth(place).number()
        } else {
            0
        }
    }

    /// After a Write: the next word, or the link.
    #[tactic(auto, unfolding(crate::specs::Machine::written))]
    pub(crate) fn write(&mut self)
        requires node { self.old.node < PAST_WORDS }
        requires start { self.old.start < PAST_WORDS }
        requires at { self.old.at < PAST_WORDS }
        ensures { self.new ≡ written self.old }
    {
        if self.at + 1 < self.start + self.block_words() {
            self.at += 1;
        } else {
            self.stage = Stage::Publishing;
            self.at = self.node + LINK_WORD as u32;
        }
    }

    /// The nodes of the held block, if the walker has written its header and none of them;
    /// `None` exactly elsewhere.
    pub fn new_nodes(&self) -> Option<NewNodes>
        ensures { LendsNewNodes self.now result }
    {
        // The size bounds the board's cells.
        self.board.keeps();
        let written = self.at.saturating_sub(self.start);
        match self.stage {
            Stage::Writing if written == HEADER_WORDS as u32 => {
                Some(NewNodes::of(self.at, self.board.empties()))
            }
            _ => None,
        }
    }

    /// Goes on with the nodes that are left now, after some that were written by themselves. After
    /// the last the link is next.
    pub fn put_new_nodes(&mut self, nodes: NewNodes)
        requires { self.old.node < PAST_WORDS }
        ensures { self.new ≡ with_nodes self.old nodes }
    {
        if nodes.is_done() {
            self.stage = Stage::Publishing;
            self.at = self.node + LINK_WORD as u32;
        } else {
            self.at = nodes.at();
        }
    }

    /// After a Publish: the walk goes on below the node, by the link that now holds.
    pub(crate) fn publish(&mut self, answer: u64)
        requires { answer < PAST_WORDS }
        ensures { self.new ≡ linked_now self.old answer }
    {
        if answer == 0 {
            self.go_below(self.start);
        } else {
            self.go_below(answer as u32);
        }
    }
}
