//! How a board is judged: by the links and circuits of both players, in any thread.

use super::filling::filled;
use super::nodes::{Kid, NOWHERE, State};
use super::pool::{Both, KeptBoth, Pool, Verdict};
use super::refusals::Memory;
use super::values::{prior_of, value_of, worth};
use circuit::Circuit;
use hex_board::Board;
use hex_cells::{Cell, CellSet, Colour, MOST_CELLS};
use live_links::Room;
use std::alloc::Global;

/// A board that is to be judged: that of a node, with one stone more.
#[derive(Clone, Copy)]
pub(crate) struct Job {
    /// The node, the number of its kid, and who moves there, on which cell.
    pub above: u32,
    pub number: u32,
    pub mover: Colour,
    pub cell: Cell,
    /// The node's board, and where its links are kept, if they are.
    pub board: Board,
    pub slot: Option<usize>,
}

/// A board, on which cells were filled, and what is known of it for the player to move.
#[derive(Clone, Copy)]
pub(crate) struct Finding {
    pub board: Board,
    pub state: State,
    /// If neither player is known to win.
    pub value: u64,
}

impl Finding {
    // What is known of a board that is won or lost.
    fn decided(board: Board, state: State) -> Finding {
        Finding {
            board,
            state,
            value: 0,
        }
    }
}

/// A board that is judged, and what that left. It has memory of its own, which is used again.
#[derive(Drop)]
pub(crate) struct Case {
    // Links that can be kept: those of an open board, and those of the node above, where they had
    // to be made anew; and whether they are there, for which they must not be too many.
    after: KeptBoth,
    has_after: bool,
    before: KeptBoth,
    has_before: bool,
    // The kids of the board.
    kids: Vec<Kid>,
    job: Option<Job>,
    found: Result<Option<Finding>, Memory>,
}

impl Case {
    // One without a job.
    fn make(alloc: Global) -> Case {
        Case {
            after: KeptBoth::none(alloc),
            has_after: false,
            before: KeptBoth::none(alloc),
            has_before: false,
            kids: Vec::new(alloc),
            job: None,
            found: Ok(None),
        }
    }

    // Makes room for links with so many entries of a player's.
    fn make_room(&mut self, entries: usize) -> Result<(), Memory> {
        self.after.make_room(entries)?;
        self.before.make_room(entries)
    }

    /// Gives it a job.
    pub(crate) fn give(&mut self, job: Job) {
        self.job = Some(job);
        self.has_after = false;
        self.has_before = false;
        self.found = Ok(None);
    }

    /// The job that was done, and what was found. It has none from then on.
    pub(crate) fn take(&mut self) -> Result<Option<(Job, Finding)>, Memory> {
        let job = self.job.take();
        let found = self.found?;
        match (job, found) {
            (Some(job), Some(finding)) => Ok(Some((job, finding))),
            _ => Ok(None),
        }
    }

    /// The links of the board that was judged last, if it is open and they can be kept.
    pub(crate) fn after(&mut self) -> Option<&mut KeptBoth> {
        if self.has_after {
            Some(&mut self.after)
        } else {
            None
        }
    }

    /// The links of the node above, if they were made anew and can be kept.
    pub(crate) fn before(&mut self) -> Option<&mut KeptBoth> {
        if self.has_before {
            Some(&mut self.before)
        } else {
            None
        }
    }

    /// The kids of the board that was judged last, if it is open.
    pub(crate) fn kids(&self) -> &[Kid] {
        &self.kids
    }
}

/// Judges the boards of its cases, one after the other. What it needs for that is used again, so
/// that the processor has it at hand.
#[derive(Drop)]
pub(crate) struct Judge {
    scratch: Scratch,
    cases: Vec<Case>,
}

impl Judge {
    /// One with so many cases without a job.
    pub(crate) fn make(alloc: Global, cases: usize) -> Result<Judge, Memory> {
        let mut judge = Judge {
            scratch: Scratch::make(alloc)?,
            cases: Vec::new(alloc),
        };
        for _case in 0..cases {
            judge.cases.push(Case::make(alloc))?;
        }
        Ok(judge)
    }

    /// Makes room in each case for links with so many entries of a player's.
    pub(crate) fn make_room(&mut self, entries: usize) -> Result<(), Memory> {
        for case in self.cases.iter_mut() {
            case.make_room(entries)?;
        }
        Ok(())
    }

    /// The case with this number.
    pub(crate) fn case(&mut self, number: usize) -> Option<&mut Case> {
        self.cases.get_mut(number)
    }

    /// Does the jobs of the first so many cases, by the links that are kept.
    pub(crate) fn work(&mut self, count: usize, pool: &Pool) {
        for case in self.cases.iter_mut().take(count) {
            self.scratch.work(case, pool);
        }
    }

    /// Judges the board of the root in its first case.
    pub(crate) fn judged_root(
        &mut self,
        board: &Board,
        mover: Colour,
        must: CellSet,
    ) -> Result<Finding, Memory> {
        match self.cases.first_mut() {
            Some(case) => self.scratch.judged_root(case, board, mover, must),
            None => Err(Memory),
        }
    }
}

// What a board is judged with.
#[derive(Drop)]
struct Scratch {
    own: Circuit,
    other: Circuit,
    // The links of the board.
    fresh: Both,
    // Those of the node above, where they aren't kept.
    above: KeptBoth,
    room: Room,
}

impl Scratch {
    fn make(alloc: Global) -> Result<Scratch, Memory> {
        let mut scratch = Scratch {
            own: Circuit::make(alloc)?,
            other: Circuit::make(alloc)?,
            fresh: Both::make(alloc)?,
            above: KeptBoth::none(alloc),
            room: Room::make(alloc)?,
        };
        scratch.above.make_room_for_any()?;
        Ok(scratch)
    }

    // Does the job of a case, if it has one.
    fn work(&mut self, case: &mut Case, pool: &Pool) {
        if let Some(job) = case.job {
            case.found = match self.judged(case, &job, pool) {
                Ok(finding) => Ok(Some(finding)),
                Err(refused) => Err(refused),
            };
        }
    }

    // Judges the board of the root, on which the player places on one of these cells. Cells are
    // filled if nobody is joined by that.
    fn judged_root(
        &mut self,
        case: &mut Case,
        board: &Board,
        mover: Colour,
        must: CellSet,
    ) -> Result<Finding, Memory> {
        let mut now = filled(board);
        if now.winner().is_some() {
            now = *board;
        }
        self.fresh.load(&now)?;
        self.opened(case, &now, mover, must)
    }

    // Judges the board of a job.
    fn judged(&mut self, case: &mut Case, job: &Job, pool: &Pool) -> Result<Finding, Memory> {
        let board = filled(&with_stone(&job.board, job.mover, job.cell));
        let mover = job.mover.other();
        let verdict = self.verdict(case, job, pool, &board)?;
        match verdict {
            Verdict::Among(must) => self.opened(case, &board, mover, must),
            Verdict::Won => Ok(Finding::decided(board, State::Won)),
            Verdict::Lost => Ok(Finding::decided(board, State::Lost)),
        }
    }

    // What is known of the board of a job, by the links of the node above. They are made anew if
    // they are gone.
    fn verdict(
        &mut self,
        case: &mut Case,
        job: &Job,
        pool: &Pool,
        board: &Board,
    ) -> Result<Verdict, Memory> {
        let mover = job.mover.other();
        if let Some(slot) = job.slot
            && let Some(before) = pool.at(slot)
        {
            return self.fresh.verdict(before, board, mover, &mut self.room);
        }
        self.fresh.load(&job.board)?;
        self.above.keep(&self.fresh)?;
        case.has_before = case.before.keep(&self.fresh)?;
        self.fresh
            .verdict(&self.above, board, mover, &mut self.room)
    }

    // Judges an open board by the circuits of the fresh links, with kids on these cells.
    fn opened(
        &mut self,
        case: &mut Case,
        board: &Board,
        mover: Colour,
        must: CellSet,
    ) -> Result<Finding, Memory> {
        self.fresh.of(mover).draw(&mut self.own);
        self.fresh.of(mover.other()).draw(&mut self.other);
        self.find_kids(must, &mut case.kids)?;
        case.has_after = case.after.keep(&self.fresh)?;
        Ok(Finding {
            board: *board,
            state: State::Open,
            value: value_of(&self.own, &self.other),
        })
    }

    // Finds the kids on these cells.
    fn find_kids(&self, cells: CellSet, kids: &mut Vec<Kid>) -> Result<(), Memory> {
        kids.clear();
        let all = self.worth_of(cells);
        let mut rest = cells;
        for _step in 0..MOST_CELLS {
            let Some(cell) = rest.least() else {
                break;
            };
            rest = rest.without(cell);
            let prior = prior_of(worth(&self.own, &self.other, cell), all);
            kids.push(Kid {
                cell,
                prior,
                node: NOWHERE,
            })?;
        }
        Ok(())
    }

    // What these cells are worth together.
    fn worth_of(&self, cells: CellSet) -> u64 {
        let mut all = 0u64;
        let mut rest = cells;
        for _step in 0..MOST_CELLS {
            let Some(cell) = rest.least() else {
                return all;
            };
            rest = rest.without(cell);
            all = all.saturating_add(worth(&self.own, &self.other, cell));
        }
        all
    }
}

// The board with a stone on the cell, if it is empty.
fn with_stone(board: &Board, colour: Colour, cell: Cell) -> Board {
    let mut now = *board;
    if now.empties().has(cell) {
        now.place(colour, cell);
    }
    now
}
