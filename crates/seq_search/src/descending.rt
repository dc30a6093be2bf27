//! The way of a walk from the root down to its leaf.

ghost use Rattle.std.specs.Prelude.{◌≡◌, ℕ, ◌+◌, ◌≤◌, ◌<◌, length, set, slice_index, List, true};
ghost use Rattle.hex_cells.specs.Colours.{other_of};
ghost use Rattle.hex_board.specs.Positions.{is_empty_at, placed};
ghost use Rattle.tree_words.specs.Blocks.{LinkedBlock};
ghost use Rattle.tree_words.specs.Settings.{IsSetting};
ghost use Rattle.tree_words.specs.Words.{cell_in, root_at};
ghost use Rattle.seq_search.specs.Steps.{Holds};
ghost use Rattle.seq_search.specs.Descending.{Descended, HasRoom};

use super::choosing::choose;
use hex_board::Board;
use hex_cells::{Cell, Colour};
use tree_words::layout::{HEADER_WORDS, LINK_WORD, MOST_NODES, NODE_WORDS, TALLY_WORD};
use tree_words::{Shape, cell_of, visits_of};

/// Each step places a stone on an empty cell, of which there are no more than nodes of the largest
/// block.
pub(crate) const MOST_STEPS: usize = MOST_NODES;

/// How far a walk has come: the node that it stands at, the board there with the player to move,
/// and the nodes that it went through below the root.
#[derive(Drop)]
pub(crate) struct Descent {
    /// The board.
    pub(crate) board: Board,
    /// The player to move.
    pub(crate) player: Colour,
    /// The first word of the node.
    pub(crate) node: usize,
    /// The first words of the nodes below the root on the way to it, the node itself last.
    pub(crate) steps: [usize; MOST_STEPS],
    /// How many these are.
    pub(crate) count: usize,
}

impl Descent {
    /// One at the root of the shape's tree. All walks of a search use it in turn, so that no steps
    /// are copied, and no room for them is cleared again.
    pub(crate) fn new(shape: &Shape) -> Descent {
        Descent {
            board: *shape.board(),
            player: shape.colour(),
            node: shape.root() as usize,
            steps: [0; MOST_STEPS],
            count: 0,
        }
    }

    // Goes back to the root.
    fn begin(&mut self, shape: &Shape)
        ensures board { self.new.board ≡ shape.now.board }
        ensures player { self.new.player ≡ shape.now.player }
        ensures node { self.new.node ≡ root_at shape.now }
        ensures count { self.new.count ≡ 0 }
        ensures room { HasRoom self.new }
        ensures setting { IsSetting shape.now }
    {
        self.board = *shape.board();
        self.player = shape.colour();
        self.node = shape.root() as usize;
        self.count = 0;
    }

    // Goes on to a child of the node.
    fn step(&mut self, words: &[u64], child: usize)
        requires within { child < length words.now }
        requires empty { is_empty_at self.old.board (cell_in (slice_index words.now child)) ≡ true }
        requires room { self.old.count < MOST_STEPS }
        ensures board { self.new.board
            ≡ placed self.old.board self.old.player (cell_in (slice_index words.now child)) }
        ensures player { self.new.player ≡ other_of self.old.player }
        ensures node { self.new.node ≡ child }
        ensures steps { self.new.steps ≡ set self.old.steps self.old.count child }
        ensures count { self.new.count ≡ self.old.count + 1 }
    {
        let cell = Cell::numbered(cell_of(words[child]));
        self.board.place(self.player, cell);
        self.player = self.player.other();
        self.steps[self.count] = child;
        self.count += 1;
        self.node = child;
    }
}

/// Walks from the root to a leaf: at each node with a block it goes to the child that Choice takes.
pub(crate) fn descend(words: &[u64], shape: &Shape, walk: &mut Descent)
    requires { (bs : List LinkedBlock) × (k : ℕ) × (k ≤ shape.now.knobs.playouts)
        × Holds shape.now bs words.now k }
    ensures leaf { (bs : List LinkedBlock) (k : ℕ) → k ≤ shape.now.knobs.playouts
        → Holds shape.now bs words.now k → Descended shape.now bs words.now walk.new }
{
    let weight = shape.knobs().weight;
    walk.begin(shape);
    let mut block = words[walk.node + LINK_WORD] as usize;
    'down: while block != 0 {
        let visits = visits_of(words[walk.node + TALLY_WORD]);
        let place = choose(words, block, visits, weight);
        walk.step(words, block + HEADER_WORDS + NODE_WORDS * place);
        block = words[walk.node + LINK_WORD] as usize;
    }
}
