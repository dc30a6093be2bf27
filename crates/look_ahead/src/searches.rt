//! The best-first search, without recursion.

ghost use Rattle.std.specs.Prelude.{◌≡◌, ◌+◌, ◌≤◌, ◌<◌, ℕ, IfOk, true, false, length};
ghost use Rattle.hex_cells.specs.Sets.{has};
ghost use Rattle.look_ahead.specs.Looked.{IsLookOf};

use super::judges::Judge;
use super::keeping::Last;
use super::nodes::{Kid, LookNode, NOWHERE, State};
use super::pool::{Pool, entries_on};
use super::refusals::Memory;
use super::rows::Looked;
use hex_board::Board;
use hex_cells::{Cell, CellSet, Colour, MOST_CELLS, Size};
use std::alloc::Global;
use std::thread::Threads;

// So many batches are made for each node of the budget at most: some walks end at a node that is
// known.
const BATCHES_PER_NODE: u64 = 4;

// Room is made beforehand for so many nodes, with as many kids as the root has each: less than
// 16 MB.
const NODES_WITH_ROOM: u32 = 10_000;

// Of several workers each judges so many boards of a batch: two take more nearly as long as two
// others than one as long as another.
const BOARDS_EACH: u32 = 2;

// The most boards of a batch.
const MOST_BOARDS: u32 = 64;

/// A board with the player to move.
#[derive(Clone, Copy)]
pub struct Root<'a> {
    pub board: &'a Board,
    pub colour: Colour,
}

/// A search, with memory that is used again.
#[derive(Drop)]
pub struct Look {
    pub(super) nodes: Vec<LookNode>,
    pub(super) kids: Vec<Kid>,
    // The links of nodes.
    pub(super) pool: Pool,
    // One for each thread.
    pub(super) judges: Vec<Judge>,
    // How many boards a batch has at most.
    pub(super) boards: usize,
    // What a later search begins with: the last root, if nothing came between.
    pub(super) last: Option<Last>,
    // Room for what is kept: where each node is from now on, and the kids of the root that have
    // nodes.
    pub(super) places: Vec<u32>,
    pub(super) tops: Vec<Kid>,
}

/// A kid without a node, the node above it, and who moves there.
#[derive(Clone, Copy)]
pub(super) struct Fresh {
    pub above: u32,
    pub number: u32,
    pub mover: Colour,
    pub cell: Cell,
}

/// Where a walk ends.
#[derive(Clone, Copy)]
pub(super) enum End {
    /// At a node that is known.
    Known(u32),
    /// At a kid that has to be judged.
    Fresh(Fresh),
    /// Where all kids that are left are being judged.
    Blocked,
}

impl Look {
    /// A search without nodes, by so many workers.
    pub fn make(alloc: Global, workers: u32) -> Result<Look, Memory> {
        let boards = boards_of(workers);
        let threads = workers.min(boards).max(1);
        let cases = boards.div_ceil(threads) as usize;
        let mut judges = Vec::new(alloc);
        for _thread in 0..threads {
            judges.push(Judge::make(alloc, cases)?)?;
        }
        Ok(Look {
            nodes: Vec::new(alloc),
            kids: Vec::new(alloc),
            pool: Pool::make(alloc),
            judges,
            boards: boards as usize,
            last: None,
            places: Vec::new(alloc),
            tops: Vec::new(alloc),
        })
    }

    /// What is found of the cells of `must`, on which the root's player is to place a stone, with
    /// the one that is chosen: one whose row has the highest rank, and of several such ones
    /// that with the greatest prior. The search has at most `budget` nodes, and at least the root.
    /// Who is known to win after a stone does, and the line of a row can be played after it.
    ///
    /// If this root follows that of the last call by one or two moves, made in turn, the nodes that
    /// are there already are kept, and count.
    ///
    /// It refuses only if memory runs out. A body is proved that walks to any nodes.
    pub fn choose<R: Threads + Sync>(
        &mut self,
        rt: &R,
        alloc: Global,
        root: &Root<'_>,
        must: CellSet,
        budget: u32,
    ) -> Result<Looked, Memory>
        requires some { (k : ℕ) × (has must k ≡ true) }
        requires budget { 1 ≤ budget }
        ensures { IfOk result (IsLookOf root.now.board.now root.now.colour must budget) }
    {
        self.begin(root, must, budget)?;
        self.make_room(budget.min(NODES_WITH_ROOM), must.count())?;
        self.make_room_for_links(alloc, budget, root.board.size())?;
        self.open_root(root, must)?;
        'batches: for _batch in 0..u64::from(budget) * BATCHES_PER_NODE {
            let most = self.width(budget);
            if most == 0 {
                break;
            }
            self.batch(rt, root.colour, most)?;
        }
        let nodes = self.nodes.len() as u32;
        let looked = self.told(alloc, root, must, nodes)?;
        self.last = Some(Last {
            board: *root.board,
            colour: root.colour,
        });
        Ok(looked)
    }

    /// Says that nothing is kept for the next call.
    pub fn forget(&mut self) {
        self.last = None;
    }

    // Makes room for so many nodes, with so many kids each.
    fn make_room(&mut self, nodes: u32, kids: u32) -> Result<(), Memory>
        ensures { self.new.nodes.items ≡ self.old.nodes.items }
    {
        self.nodes.reserve(nodes as usize)?;
        self.kids.reserve(nodes as usize * kids as usize)?;
        Ok(())
    }

    // Makes room for the links of so many nodes, and for those that are made.
    fn make_room_for_links(&mut self, alloc: Global, nodes: u32, size: Size) -> Result<(), Memory>
        ensures { self.new.nodes ≡ self.old.nodes }
    {
        let entries = entries_on(size);
        self.pool.make_room(alloc, nodes, entries)?;
        for judge in self.judges.iter_mut() {
            judge.make_room(entries)?;
        }
        Ok(())
    }

    // Puts the root at its place, with kids on these cells, of which some have nodes already.
    fn open_root(&mut self, root: &Root<'_>, must: CellSet) -> Result<(), Memory>
        ensures { length self.new.nodes.items ≡ length self.old.nodes.items }
    {
        let Some(judge) = self.judges.first_mut() else {
            return Err(Memory);
        };
        let finding = judge.judged_root(root.board, root.colour, must)?;
        let node = self.node_of(0, &finding, NOWHERE, 0)?;
        if let Some(first) = self.nodes.first_mut() {
            *first = node;
        }
        self.attach();
        Ok(())
    }

    // How many boards are judged next: as many as a batch has, but no more nodes than the budget
    // has, and none if the root is decided.
    fn width(&self, budget: u32) -> usize
        ensures { 0 < result → length self.now.nodes.items + result ≤ budget }
    {
        if self.state_at(0) != State::Open {
            return 0;
        }
        let left = (budget as usize).saturating_sub(self.nodes.len());
        left.min(self.boards)
    }

    /// Down to where a walk ends.
    pub(super) fn down(&mut self, colour: Colour) -> End
        ensures { length self.new.nodes.items ≡ length self.old.nodes.items }
    {
        let mut mover = colour;
        let mut place = 0u32;
        'stones: for _depth in 0..MOST_CELLS {
            let Some((number, kid)) = self.next(place) else {
                break;
            };
            if kid.node == NOWHERE {
                return End::Fresh(Fresh {
                    above: place,
                    number,
                    mover,
                    cell: kid.cell,
                });
            }
            mover = mover.other();
            place = kid.node;
        }
        if self.state_at(place) == State::Open {
            return End::Blocked;
        }
        End::Known(place)
    }

    // The kid to which a walk goes on from an open node, with its number. If all are won by the
    // other player, the node is lost. `None` if some are being judged, and the others are won.
    fn next(&mut self, place: u32) -> Option<(u32, Kid)>
        ensures { length self.new.nodes.items ≡ length self.old.nodes.items }
    {
        if self.state_at(place) != State::Open {
            return None;
        }
        let best = self.best(place);
        if best.is_none()
            && let Some(node) = self.nodes.get_mut(place as usize)
            && node.away == 0
        {
            node.state = State::Lost;
        }
        best
    }

    /// Back up from a node.
    pub(super) fn up(&mut self, end: u32)
        ensures { length self.new.nodes.items ≡ length self.old.nodes.items }
    {
        let mut value = 0u64;
        let mut is_lost = false;
        let mut place = end;
        'nodes: for step in 0..=MOST_CELLS {
            let Some(node) = self.nodes.get_mut(place as usize) else {
                break;
            };
            value = if step == 0 {
                node.value()
            } else {
                node.take(value, is_lost)
            };
            is_lost = node.state == State::Lost;
            place = node.above;
        }
    }
}

// How many boards a batch of so many workers has: at least 1.
fn boards_of(workers: u32) -> u32 {
    if workers <= 1 {
        1
    } else {
        workers.saturating_mul(BOARDS_EACH).min(MOST_BOARDS)
    }
}
