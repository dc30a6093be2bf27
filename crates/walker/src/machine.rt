//! The walker: one worker as a machine.

ghost use Rattle.std.specs.Prelude.{◌≡◌, ◌<◌};
ghost use Rattle.arena_rule.specs.Lookups.{record_word};

use super::climbs::Climb;
use super::scans::Scan;
use super::stages::Stage;
use super::ways::Way;
use hex_board::Board;
use hex_cells::Colour;
use play_out::Ending;
use tree_words::layout::{HEADER_WORDS, MOST_BLOCK_WORDS, MOST_NODES, RECORD_UNIT};
use tree_words::{Op, Shape};

/// The looks at a child: its move, its tally and its seen word.
pub(crate) const CHILD_LOOKS: usize = 3;

/// The looks at a block: its header and each of its children.
pub(crate) const HEAD_STEPS: usize = HEADER_WORDS + CHILD_LOOKS * MOST_NODES;

/// The steps of a level on the way down at most: the look at the link, a claim, the writes of a
/// block, its link, and the looks at it.
pub(crate) const LEVEL_STEPS: usize = 3 + MOST_BLOCK_WORDS + HEAD_STEPS;

/// The steps of a level on the way up at most: the add to a tally, and those to the seen words of
/// a block.
pub(crate) const UP_STEPS: usize = 1 + MOST_NODES;

/// The steps after the way up: the add to the root's tally and the record.
pub(crate) const LAST_STEPS: usize = 2;

/// No walk has more steps than this, its draw left out: the root's tally, a level for the root and
/// for each cell, and the way up again.
pub const WALK_STEPS: usize = 1
    + LEVEL_STEPS * (1 + MOST_NODES)
    + UP_STEPS * MOST_NODES
    + LAST_STEPS;

/// One worker of a search as a machine. It knows no table: it tells its next step, and is told the
/// answer.
#[derive(Drop)]
pub struct Walker {
    pub(crate) shape: Shape,
    pub(crate) stage: Stage,
    // A claim went past the area's end.
    pub(crate) full: bool,
    // The number in hand.
    pub(crate) number: u32,
    // The next word, if the stage has one.
    pub(crate) at: u32,
    // The node at which the walk stands, its board and the player to move there, and the levels of
    // its way.
    pub(crate) node: u32,
    pub(crate) board: Board,
    pub(crate) player: Colour,
    pub(crate) way: Way,
    // The visits with which the node was loaded.
    pub(crate) visits: u32,
    // The block below the node, or the held block.
    pub(crate) start: u32,
    pub(crate) scan: Scan,
    // The leaf of the walk, its playout, and the seen adds of the level in hand.
    pub(crate) leaf: u32,
    pub(crate) ending: Ending,
    pub(crate) climb: Climb,
}

impl Walker {
    ghost use Rattle.std.specs.Prelude.{◌≡◌, ◌≢◌, ◌<◌, ◌≤◌, ◌↔◌, ◌⊎◌};
    ghost use Rattle.tree_words.specs.declared.steps.Op.{Op};
    ghost use Rattle.arena_rule.specs.Views.{SeatView, HasDrawnNothing};
    ghost use Rattle.arena_rule.specs.IsView.{IsView};
    ghost use Rattle.arena_rule.specs.Fits.{FitsStep};
    ghost use Rattle.arena_rule.specs.Afters.{after};
    ghost use Rattle.arena_rule.specs.Answers.{MayAnswer};
    ghost use Rattle.walker.specs.Machine.{next, op_of};
    ghost use Rattle.walker.specs.Belongs.{Belongs, MayGet};
    ghost use Rattle.walker.specs.Choosing.{CanGo};
    ghost use Rattle.walker.specs.Measure.{steps_left};

    /// A worker of the shape that has drawn nothing.
    pub fn new(shape: &Shape) -> Walker
        ensures op { op_of result ≡ Op.Draw }
        ensures belongs { (v : SeatView) → v.shape ≡ shape.now → v.width ≡ 1 → HasDrawnNothing v
            → IsView v → Belongs result v }
    {
        let board = *shape.board();
        Walker {
            shape: *shape,
            stage: Stage::Drawing,
            full: false,
            number: 0,
            at: 0,
            node: shape.root(),
            board,
            player: shape.colour(),
            way: Way::none(),
            visits: 0,
            start: 0,
            scan: Scan::of(0, 0, 0, 0),
            leaf: 0,
            ending: Ending {
                full: board,
                winner: Colour::Black,
            },
            climb: Climb::none(),
        }
    }

    /// The next step, or Done.
    #[inline(always)]
    pub fn op(&self) -> Op
        ensures is { result ≡ op_of self.now }
        ensures fits { (v : SeatView) → Belongs self.now v → FitsStep v result }
    {
        self.step()
    }

    /// Takes the answer of the step.
    #[inline(always)]
    pub fn got(&mut self, answer: u64)
        requires { MayGet self.old answer }
        ensures is { self.new ≡ next self.old answer }
        ensures belongs { (v : SeatView) → Belongs self.old v → MayAnswer v (op_of self.old) answer
            → Belongs self.new (after v (op_of self.old) answer) }
        ensures fewer { op_of self.old ≢ Op.Draw → op_of self.old ≢ Op.Done
            → steps_left self.new < steps_left self.old }
        ensures bound { op_of self.old ≡ Op.Draw → steps_left self.new ≤ WALK_STEPS }
        ensures ended { (op_of self.new ≡ Op.Done) ↔ ((op_of self.old ≡ Op.Done)
            ⊎ ((op_of self.old ≡ Op.Draw) × (self.old.shape.knobs.playouts ≤ answer))) }
    {
        self.go_on(answer);
    }

    // The step of each stage.
    #[inline(always)]
    fn step(&self) -> Op
        ensures { result ≡ op_of self.now }
    {
        match self.stage {
            Stage::Drawing => Op::Draw,
            Stage::Rooting | Stage::Linking | Stage::Heading => Op::Look(self.at),
            Stage::Scanning => self.scan.op(),
            Stage::Claiming => Op::Claim(self.block_words()),
            Stage::Writing => Op::Write(self.at, self.word_to_write()),
            Stage::Publishing => Op::Publish(self.at, self.start),
            Stage::Tallying => Op::Add(self.at, self.ending.winner == self.player.other()),
            Stage::Seeing => self.climb.op(),
            Stage::Noting => Op::Note(self.number, self.record()),
            Stage::Ended => Op::Done,
        }
    }

    // What each stage does with its answer.
    #[inline(always)]
    fn go_on(&mut self, answer: u64)
        requires { CanGo self.old answer }
        ensures { self.new ≡ next self.old answer }
    {
        match self.stage {
            Stage::Drawing => self.draw(answer),
            Stage::Rooting => self.stand_at_root(answer),
            Stage::Linking => self.link(answer),
            Stage::Heading => self.head(),
            Stage::Scanning => self.look(answer),
            Stage::Claiming => self.claim(answer),
            Stage::Writing => self.write(),
            Stage::Publishing => self.publish(answer),
            Stage::Tallying => self.tally(),
            Stage::Seeing => self.see(),
            Stage::Noting => self.stage = Stage::Drawing,
            Stage::Ended => {}
        }
    }

    // The record of the walk.
    fn record(&self) -> u64
        ensures { result ≡ record_word self.now.leaf self.now.ending.winner }
    {
        let leaf = RECORD_UNIT * u64::from(self.leaf);
        match self.ending.winner {
            Colour::Black => leaf,
            Colour::White => leaf + 1,
        }
    }
}
