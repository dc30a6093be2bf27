//! The way down: from the root to a node, by its link, its block's header and its children.

ghost use Rattle.std.specs.Prelude.{◌≡◌, ◌≢◌, ◌+◌, ◌<◌, ◌≤◌, IsTrue, MatchOption};
ghost use Rattle.hex_board.specs.Positions.{Within};
ghost use Rattle.walker.specs.Machine.{at_block, at_leaf, at_node, chosen, drawn, headed};
ghost use Rattle.walker.specs.Machine.{linked, rooted, scanned, set_in, with_scan};
ghost use Rattle.walker.specs.Choosing.{MayChoose, MayScan};

use super::PAST_WORDS;
use super::machine::Walker;
use super::scans::Scan;
use super::stages::Stage;
use super::ways::Level;
use hex_cells::{CellSet, Size};
use play_out::play;
use tree_words::layout::{HEADER_WORDS, LINK_WORD, NODE_WORDS, TALLY_WORD};
use tree_words::visits_of;
use uct_table::MOST_COUNT;

impl Walker {
    /// After a Draw: a number below N begins a walk, any other ends the worker.
    #[tactic(auto, unfolding(crate::specs::Machine::drawn))]
    pub(crate) fn draw(&mut self, answer: u64)
        ensures { self.new ≡ drawn self.old answer }
    {
        let playouts = self.shape.knobs().playouts;
        if answer < u64::from(playouts) {
            self.number = answer as u32;
            self.stage = Stage::Rooting;
            self.at = self.shape.root() + TALLY_WORD as u32;
        } else {
            self.stage = Stage::Ended;
        }
    }

    /// After the look at the root's tally: the walk stands at the root.
    #[tactic(auto, unfolding(crate::specs::Machine::rooted))]
    pub(crate) fn stand_at_root(&mut self, answer: u64)
        ensures { self.new ≡ rooted self.old answer }
    {
        self.way.clear();
        self.node = self.shape.root();
        self.board = *self.shape.board();
        self.player = self.shape.colour();
        self.visits = visits_of(answer);
        self.stand();
    }

    // The walk stands at the node: its link is next.
    fn stand(&mut self)
        requires { self.old.node < PAST_WORDS }
        ensures { self.new ≡ at_node self.old }
    {
        self.stage = Stage::Linking;
        self.at = self.node + LINK_WORD as u32;
    }

    /// After the look at the node's link.
    #[tactic(auto, unfolding(crate::specs::Machine::linked))]
    pub(crate) fn link(&mut self, answer: u64)
        requires node { self.old.node < PAST_WORDS }
        requires answer { answer < PAST_WORDS }
        ensures { self.new ≡ linked self.old answer }
    {
        if answer != 0 {
            self.go_below(answer as u32);
        } else if self.asks() {
            self.stage = Stage::Claiming;
        } else {
            self.play_out();
        }
    }

    /// The block that begins at `start` is below the node: its header is next.
    pub(crate) fn go_below(&mut self, start: u32)
        ensures { self.new ≡ at_block self.old start }
    {
        self.stage = Stage::Heading;
        self.start = start;
        self.at = start;
    }

    /// After a look at a header word.
    #[tactic(auto, unfolding(crate::specs::Machine::headed))]
    #[inline(always)]
    pub(crate) fn head(&mut self)
        requires node { self.old.node < PAST_WORDS }
        requires start { self.old.start < PAST_WORDS }
        requires at { self.old.at < PAST_WORDS }
        requires visits { self.old.visits ≤ MOST_COUNT }
        requires size { self.old.board.size ≡ self.old.shape.board.size }
        ensures { self.new ≡ headed self.old }
    {
        if self.at + 1 < self.start + HEADER_WORDS as u32 {
            self.at += 1;
        } else {
            self.begin_scan();
        }
    }

    // After the last header word: the children are next, if there are any.
    #[inline(never)]
    fn begin_scan(&mut self)
        requires node { self.old.node < PAST_WORDS }
        requires start { self.old.start < PAST_WORDS }
        requires last { self.old.start + HEADER_WORDS ≤ self.old.at + 1 }
        requires visits { self.old.visits ≤ MOST_COUNT }
        requires size { self.old.board.size ≡ self.old.shape.board.size }
        ensures { self.new ≡ headed self.old }
    {
        let count = self.cells().count();
        if count == 0 {
            self.play_out();
            return;
        }
        self.stage = Stage::Scanning;
        self.scan = Scan::of(self.start, count, self.visits, self.shape.knobs().weight);
    }

    // The cells of the block below the node.
    fn cells(&self) -> CellSet
        ensures value { result ≡ set_in self.now }
        ensures within { self.now.board.size ≡ self.now.shape.board.size
            → Within self.now.shape.board.size result }
        ensures size { self.now.shape.board.size ≤ Size.MAX }
    {
        // The board bounds its cells.
        let _size = self.shape.board().size();
        if self.way.is_none() {
            self.shape.allowed()
        } else {
            self.board.empties()
        }
    }

    /// After a look at a child.
    #[tactic(auto, unfolding(crate::specs::Machine::with_scan))]
    #[inline(always)]
    pub(crate) fn look(&mut self, answer: u64)
        requires { MayScan self.old answer }
        ensures { self.new ≡ scanned self.old answer }
    {
        self.scan.got(answer);
        if self.scan.is_done() {
            self.choose();
        }
    }

    /// Whether a header word of the block below the node is looked at next.
    #[inline(always)]
    pub fn is_at_header(&self) -> bool
        ensures { IsTrue result → self.now.stage ≡ Stage.Heading }
    {
        matches!(self.stage, Stage::Heading)
    }

    /// The scan of the block below the node, if the walker is in one; `None` exactly elsewhere.
    pub fn scan(&self) -> Option<Scan>
        ensures { MatchOption result (self.now.stage ≢ Stage.Scanning)
            (λ scan. (self.now.stage ≡ Stage.Scanning) × (scan ≡ self.now.scan)) }
    {
        match self.stage {
            Stage::Scanning => Some(self.scan.again()),
            _ => None,
        }
    }

    /// Goes on with the scan as it is now, after looks that it made by itself. After its last look
    /// the walk goes to the child that was kept.
    #[tactic(auto, unfolding(crate::specs::Machine::with_scan))]
    pub fn put_scan(&mut self, scan: Scan)
        requires { scan.count ≤ scan.place → MayChoose (record self.old { scan = scan }) }
        ensures { self.new ≡ with_scan self.old scan }
    {
        let done = scan.is_done();
        self.scan = scan;
        if done {
            self.choose();
        }
    }

    // The walk goes to the child that was kept.
    #[tactic(auto, unfolding(crate::specs::Machine::chosen))]
    #[inline(never)]
    fn choose(&mut self)
        requires { MayChoose self.old }
        ensures { self.new ≡ chosen self.old }
    {
        let cells = self.cells();
        let place = self.scan.best();
        let cell = cells.nth(place);
        self.way.push(Level {
            parent: self.node,
            block: self.start,
            cells,
        });
        self.node = self.start + HEADER_WORDS as u32 + NODE_WORDS as u32 * place;
        self.board.place(self.player, cell);
        self.player = self.player.other();
        self.visits = self.scan.visits();
        self.stand();
    }

    /// The node is the leaf: the playout is made, and the leaf's tally is next.
    #[tactic(auto, unfolding(crate::specs::Machine::at_leaf, crate::specs::Machine::outcome_of))]
    #[inline(never)]
    pub(crate) fn play_out(&mut self)
        requires { self.old.node < PAST_WORDS }
        ensures { self.new ≡ at_leaf self.old }
    {
        let seed = self.shape.knobs().seed;
        self.leaf = self.node;
        self.ending = play(&self.board, self.player, seed, u64::from(self.number));
        self.stage = Stage::Tallying;
        self.at = self.node + TALLY_WORD as u32;
    }
}
