//! Proof-number search without recursion. A round goes from the root down to a state that is new,
//! enters it, and goes back up.

ghost use Rattle.std.specs.Prelude.{◌≡◌, ◌≤◌, true, IfSome, None, Ok};
ghost use Rattle.hex_board.specs.Positions.{is_empty_at};

use super::nodes::{Effort, MOST_NODES, NEVER, Nodes, ScoutNode};
use super::orders::{focus, fresh, sorted};
use super::reporters::Reporters;
use super::states::State;
use conn_store::Kind;
use edge_reach::cells_of;
use edge_tables::{EdgeEntry, FinderStop, Key, Tables, by_cases};
use hex_cells::{Cell, CellSet, Colour, MOST_CELLS, Size};
use indexmap::IndexMap;
use std::alloc::Global;

/// What a search came to.
#[derive(Debug, Drop)]
pub struct Outcome {
    /// Whether the player to move wins, `None` if the budget is spent; or why the search gave up.
    pub by_mover: Result<Option<bool>, FinderStop>,
    /// How many states were entered, with the one at which it stopped.
    pub entered: u64,
}

/// A search, with what it knows.
#[derive(Drop)]
pub struct Search {
    /// The entries that it found, and others that it may use.
    pub tables: Tables,
    nodes: Nodes,
    reporters: Reporters,
    alloc: Global,
}

impl Search {
    /// A search that knows nothing, on boards of this size.
    pub fn make(alloc: Global, size: Size) -> Result<Search, FinderStop> {
        Ok(Search {
            tables: Tables::new(alloc),
            nodes: IndexMap::new(alloc),
            reporters: Reporters::make(alloc, size)?,
            alloc,
        })
    }

    /// Goes on until it is known who wins, or so many states were entered. That the budget is spent
    /// is told only if they are as many.
    ///
    /// A body is proved that says anything of who wins, or that counts states and enters none;
    /// tests tell what is found.
    pub fn decide(&mut self, root: &State, budget: u64) -> Outcome
        ensures within { result.entered ≤ budget }
        ensures spent { result.by_mover ≡ Ok None → result.entered ≡ budget }
    {
        for entered in 0..budget {
            let by_mover = self.go_on(root, true);
            if by_mover != Ok(None) {
                let entered = entered + u64::from(by_mover.is_err());
                return Outcome { by_mover, entered };
            }
        }
        Outcome {
            by_mover: self.go_on(root, false),
            entered: budget,
        }
    }

    /// The cell of the root that is tried next: that after which least is to be decided to show
    /// that the mover wins, the first of several in the order in which they are tried. There is
    /// none if the root isn't a node, or no reply is left.
    ///
    /// A body that names none, or any empty cell, is proved; tests tell which is named.
    pub fn best(&self, root: &State) -> Option<Cell>
        ensures { IfSome result (λ cell. is_empty_at root.now.board cell ≡ true) }
    {
        let (_effort, cell) = self.weigh(root)?;
        cell.filter(|cell| root.board.empties().has(*cell))
    }

    // Rounds until one leads to a state that is new, which is entered if it may be, or it is known
    // whether the player to move wins. A round that meets no new state decides a node, so there are
    // at most as many.
    fn go_on(&mut self, root: &State, may_enter: bool) -> Result<Option<bool>, FinderStop> {
        let mut path = Vec::new(self.alloc);
        for _round in 0..MOST_NODES {
            if let Some(by_mover) = self.known(root) {
                return Ok(Some(by_mover));
            }
            path.clear();
            if let Some(state) = self.down(root, &mut path)? {
                if may_enter {
                    self.enter(&state)?;
                    self.up(&path)?;
                }
                return Ok(None);
            }
            self.up(&path)?;
        }
        Err(FinderStop::NoWay)
    }

    // Whether the player to move wins, if an entry says so.
    fn known(&self, state: &State) -> Option<bool> {
        let has = |key: Key| self.tables.has(&key, state.board.empties());
        if has(state.key(state.mover, Kind::Semi)) {
            return Some(true);
        }
        has(state.key(state.mover.other(), Kind::Full)).then_some(false)
    }

    // The cells on which a stone isn't answered yet: those that all semi entries of the other's
    // have in common.
    fn replies(&self, state: &State) -> CellSet {
        let key = state.key(state.mover.other(), Kind::Semi);
        self.tables.common(&key, state.board.empties())
    }

    // The path down from the root, to a state that is decided or new: this state, if it is new.
    fn down(&mut self, root: &State, path: &mut Vec<State>) -> Result<Option<State>, FinderStop> {
        let mut state = *root;
        for _depth in 0..MOST_CELLS {
            path.push(state)?;
            if self.settle(&state)? {
                return Ok(None);
            }
            match self.weigh(&state) {
                None => return Ok(Some(state)),
                Some((_effort, None)) => return Err(FinderStop::NoWay),
                Some((_effort, Some(cell))) => state = state.after(cell),
            }
        }
        Ok(None)
    }

    // Back up the path.
    fn up(&mut self, path: &[State]) -> Result<(), FinderStop> {
        for state in path.iter().rev() {
            if !self.settle(state)?
                && let Some((effort, _cell)) = self.weigh(state)
            {
                self.set_effort(state, effort);
            }
        }
        Ok(())
    }

    // Whether it is known who wins; if so, the effort is set.
    fn settle(&mut self, state: &State) -> Result<bool, FinderStop> {
        let decided = self.winner(state)?;
        if let Some(by_mover) = decided {
            self.set_effort(state, Effort::decided(by_mover));
        }
        Ok(decided.is_some())
    }

    // Sets the effort of a state, if it is a node.
    fn set_effort(&mut self, state: &State, effort: Effort) {
        if let Some(node) = self.nodes.get_mut(&state.stones()) {
            node.effort = effort;
        }
    }

    // Whether the player to move wins, if that follows from what is known by one step: by a stone
    // after which he is known to win, or if there is none by the first after which no reply is
    // left.
    fn winner(&mut self, state: &State) -> Result<Option<bool>, FinderStop> {
        if let Some(by_mover) = self.known(state) {
            return Ok(Some(by_mover));
        }
        let replies = self.replies(state);
        if replies.is_empty() {
            self.put_cases(state)?;
            return Ok(Some(false));
        }
        let Some(node) = self.nodes.get(&state.stones()) else {
            return Ok(None);
        };
        let mut entry = self.winning_stone(state, &node.cells, replies);
        let is_unanswered = |cell: &Cell| self.replies(&state.after(*cell)).is_empty();
        if entry.is_none()
            && let Some(cell) = cells_of(replies).find(is_unanswered)
        {
            self.put_cases(&state.after(cell))?;
            entry = self.after_stone(state, cell);
        }
        if let Some(entry) = &entry {
            self.tables.put(&state.key(state.mover, Kind::Semi), entry)?;
        }
        Ok(entry.is_some().then_some(true))
    }

    // The semi entry of the mover by one of these replies after which he is known to win, that with
    // the fewest cells.
    fn winning_stone(&self, state: &State, cells: &[Cell], replies: CellSet) -> Option<EdgeEntry> {
        let left = cells.iter().copied().filter(|cell| replies.has(*cell));
        left.filter_map(|cell| self.after_stone(state, cell))
            .min_by_key(|entry| entry.width())
    }

    // The semi entry of the mover by a stone on this cell, if he is known to win then.
    fn after_stone(&self, state: &State, cell: Cell) -> Option<EdgeEntry> {
        let next = state.after(cell);
        let key = next.key(state.mover, Kind::Full);
        let entry = self.tables.narrowest(&key, next.board.empties())?;
        Some(EdgeEntry {
            carrier: entry.carrier.with(cell),
            lines: entry.lines.saturating_add(2),
            report: None,
        })
    }

    // Puts a full entry of the other player's by cases, since his semi ones leave no reply.
    fn put_cases(&mut self, state: &State) -> Result<(), FinderStop> {
        let (player, region) = (state.mover.other(), state.board.empties());
        let key = state.key(player, Kind::Semi);
        let semis = self.tables.list(self.alloc, &key, region)?;
        let full = by_cases(self.alloc, &semis, region)?;
        let full = full.ok_or(FinderStop::NoWay)?;
        self.tables.put(&state.key(player, Kind::Full), &full)
    }

    // The effort of a state, if it is a node, by those after the first of its cells that are left,
    // and the best of these cells. What is left are the replies, since they were its cells and
    // become fewer.
    //
    // To lose takes the greatest of the cells' proofs, and one more for each other cell: they share
    // what is to be shown, which a sum would count many times.
    fn weigh(&self, state: &State) -> Option<(Effort, Option<Cell>)> {
        let node = self.nodes.get(&state.stones())?;
        let replies = self.replies(state);
        let focus = focus(replies.count());
        let mut proof = NEVER - 1;
        let mut disproof = 0u32;
        let mut best = None;
        let cells = node.cells.iter().copied();
        for cell in cells.filter(|cell| replies.has(*cell)).take(focus as usize) {
            let effort = self.child_effort(state, cell);
            disproof = disproof.max(effort.proof);
            if effort.disproof < proof || best.is_none() {
                proof = effort.disproof;
                best = Some(cell);
            }
        }
        let proof = proof.min(NEVER - 1);
        let disproof = disproof.saturating_add(focus.saturating_sub(1));
        let disproof = disproof.min(NEVER - 1);
        Some((Effort { proof, disproof }, best))
    }

    // The effort after a stone on the cell.
    fn child_effort(&self, state: &State, cell: Cell) -> Effort {
        let next = state.after(cell);
        match self.nodes.get(&next.stones()) {
            Some(node) => node.effort,
            None => Effort::open(fresh(self.replies(&next).count())),
        }
    }

    // Enters a state: looks at the mover's report, and if that doesn't end it at the other's, and
    // makes a node of it if these don't.
    fn enter(&mut self, state: &State) -> Result<(), FinderStop> {
        let (mover, other) = (state.mover, state.mover.other());
        if self.reporters.report(state, mover, &mut self.tables)? {
            return Ok(());
        }
        self.reporters.report(state, other, &mut self.tables)?;
        if self.settle(state)? {
            return Ok(());
        }
        if MOST_NODES <= self.nodes.len() {
            return Err(FinderStop::Full);
        }
        let (mover, other) = self.reporters.currents();
        let cells = sorted(self.alloc, self.replies(state), &mover, &other)?;
        let effort = Effort::open(1);
        self.nodes
            .insert(state.stones(), ScoutNode { effort, cells })?;
        Ok(())
    }
}
