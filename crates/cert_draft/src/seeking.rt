//! The search for a certificate: who wins, and what shows it.

ghost use Rattle.std.specs.Prelude.{◌≡◌, ◌≤◌, true, IfOk, IfSome, None};
ghost use Rattle.hex_board.specs.Positions.{is_empty_at};

use super::assemblies::assemble;
use super::derivers::Deriver;
use super::drafts::Draft;
use super::refusals::Memory;
use super::writing::cert_of;
use edge_tables::{FinderStop, Tables};
use hex_board::Board;
use hex_cells::{Cell, Colour};
use hex_scout::{Search, State};
use std::alloc::Global;
use win_cert::Cert;

/// What a search found. No clause says that it is so, but for the budget and the best cell.
#[derive(Debug, Drop)]
pub struct Sought {
    /// Whether the player to move wins, if the search came to an end.
    pub by_mover: Option<bool>,
    /// How many states it entered.
    pub entered: u64,
    /// The cell that it would have tried next, if it entered the position.
    pub best: Option<Cell>,
    /// The certificate, not yet checked.
    pub cert: Option<Cert>,
}

/// Searches who wins the position, entering at most `budget` states, and makes a certificate of
/// what that found.
///
/// A body that enters none, and finds nothing, is proved; tests tell how many are entered.
pub fn seek(alloc: Global, board: &Board, mover: Colour, budget: u64) -> Result<Sought, Memory>
    ensures within { IfOk result (λ (s : Sought). s.entered ≤ budget) }
    ensures empty { IfOk result
        (λ (s : Sought). IfSome s.best (λ cell. is_empty_at board.now cell ≡ true)) }
{
    let root = State {
        board: *board,
        mover,
    };
    let mut sought = Sought {
        by_mover: None,
        entered: 0,
        best: None,
        cert: None,
    };
    if board.winner().is_some() {
        return Ok(sought);
    }
    match search(alloc, &root, budget, &mut sought) {
        Err(FinderStop::Memory) => Err(Memory),
        _ => Ok(sought),
    }
}

// Decides who wins, and makes a certificate of what that found, if it comes to an end.
fn search(alloc: Global, root: &State, budget: u64, sought: &mut Sought) -> Result<(), FinderStop>
    requires none { (sought.old.entered ≡ 0) × (sought.old.best ≡ None) }
    ensures within { sought.new.entered ≤ budget }
    ensures empty { IfSome sought.new.best (λ cell. is_empty_at root.now.board cell ≡ true) }
{
    if let Some(draft) = drafted(alloc, root, budget, sought)? {
        sought.cert = Some(cert_of(&draft, root)?);
    }
    Ok(())
}

// Decides who wins, and makes a draft of what that found. The search itself is let go then: who
// owns it does nothing else, since each way out of a function drops what it owns.
fn drafted(
    alloc: Global,
    root: &State,
    budget: u64,
    sought: &mut Sought,
) -> Result<Option<Draft>, FinderStop>
    requires none { (sought.old.entered ≡ 0) × (sought.old.best ≡ None) }
    ensures within { sought.new.entered ≤ budget }
    ensures empty { IfSome sought.new.best (λ cell. is_empty_at root.now.board cell ≡ true) }
{
    let mut search = Search::make(alloc, root.board.size())?;
    drafted_by(alloc, &mut search, root, budget, sought)
}

// Decides who wins by a search, and makes a draft of what that found.
fn drafted_by(
    alloc: Global,
    search: &mut Search,
    root: &State,
    budget: u64,
    sought: &mut Sought,
) -> Result<Option<Draft>, FinderStop>
    requires none { (sought.old.entered ≡ 0) × (sought.old.best ≡ None) }
    ensures within { sought.new.entered ≤ budget }
    ensures empty { IfSome sought.new.best (λ cell. is_empty_at root.now.board cell ≡ true) }
{
    let outcome = search.decide(root, budget);
    sought.entered = outcome.entered;
    sought.best = search.best(root);
    sought.by_mover = outcome.by_mover?;
    match sought.by_mover {
        Some(true) => draft_for(alloc, root.mover, &search.tables, root),
        Some(false) => draft_for(alloc, root.mover.other(), &search.tables, root),
        None => Ok(None),
    }
}

// A draft that shows that the player wins, by the entries of these tables.
fn draft_for(
    alloc: Global,
    player: Colour,
    tables: &Tables,
    root: &State,
) -> Result<Option<Draft>, FinderStop> {
    let mut deriver = Deriver::make(alloc, root.board.size(), player)?;
    match assemble(alloc, &mut deriver, tables, root) {
        Ok(draft) => Ok(Some(draft)),
        Err(stop) => Err(stop),
    }
}
