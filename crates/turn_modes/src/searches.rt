//! The turns of the modes: that of sim by a schedule, and that of bench as a session's.

ghost use Rattle.std.specs.Prelude.{◌≡◌, ◌≢◌, ◌<◌, ℕ, None, Some, false, true, IfOk, All};
ghost use Rattle.hex_cells.specs.declared.colours.Colour.TheVariants.{Black};
ghost use Rattle.hex_board.specs.Joined.{winner_of};
ghost use Rattle.hex_board.specs.Positions.{empty_board, is_empty_at};
ghost use Rattle.tree_words.specs.Sequence.{seq_of};
ghost use Rattle.tree_words.specs.Settings.{AreInRange};
ghost use Rattle.tree_words.specs.Trees.{IsTreeOf};
ghost use Rattle.sim_run.specs.BetweenSteps.{EndsSchedule};
ghost use Rattle.hex_plan.specs.Good.{IsTurnShape, no_means};
ghost use Rattle.hex_plan.specs.Plans.{IsPlanned};
ghost use Rattle.hex_plan.specs.Turns.{CanBeWritten, IsSearchedBy};
ghost use Rattle.turn_modes.specs.OneTurn.{FollowsSchedule, IsFirstTurn, MakesFirstTurn};

use super::options::ModeOptions;
use super::positions::BenchPosition;
use super::schedules::schedule;
use hex_board::Board;
use hex_cells::Colour;
use hex_plan::{Means, Memory, Planned, Turn, plan, turn_shape};
use search_team::Gate;
use seq_search::plain_search;
use sim_run::{SimError, simulate};
use std::alloc::Global;
use std::thread::Threads;
use tree_words::{Closed, Knobs, Shape};
use turn_search::{KeptLook, decided_turn};

// The plan of a turn, and the shape of its search.
#[derive(Drop)]
struct Prepared {
    planned: Planned,
    shape: Shape,
}

// Prepares the search of the turn with number 0 on the board, with no look for connections.
fn prepare(alloc: Global, board: &Board, colour: Colour, knobs: &Knobs) -> Result<Prepared, Memory>
    requires nobody { winner_of board.now ≡ None }
    requires room { (k : ℕ) × (is_empty_at board.now k ≡ true) }
    requires ranges { AreInRange knobs.now }
    ensures planned { IfOk result (λ p. IsPlanned board.now colour no_means p.planned) }
    ensures among { IfOk result (λ p. IsSearchedBy p.planned.plan None p.shape.allowed) }
    ensures written { IfOk result (λ p. CanBeWritten p.planned.loss) }
    ensures shape { IfOk result
        (λ p. IsTurnShape knobs.now board.now colour 0 p.shape.allowed p.shape) }
{
    let planned = plan(alloc, board, colour, Means::none())?;
    let Some(allowed) = planned.allowed() else {
        unreachable!();
    };
    let shape = turn_shape(board, colour, allowed, knobs, 0);
    Ok(Prepared { planned, shape })
}

// The turn of this tree, which was searched as prepared.
fn decide(planned: Planned, closed: Closed) -> Turn
    requires searched { IsSearchedBy planned.plan None closed.shape.allowed }
    requires written { CanBeWritten planned.loss }
    ensures closed { result.closed ≡ Some closed }
    ensures first { MakesFirstTurn planned closed result }
{
    Turn::searched(closed, 0, planned, None)
}

// The tree that several workers of the shape make along a schedule of their numbers, or one by the
// sequential search, which needs none.
fn follow(alloc: Global, shape: &Shape, list: &[u8]) -> Result<Closed, Memory>
    requires { All (λ worker. worker < shape.now.knobs.workers) list.now }
    ensures shape { IfOk result (λ closed. closed.shape ≡ shape.now) }
    ensures one { shape.now.knobs.workers ≡ 1
        → IfOk result (λ closed. IsTreeOf shape.now closed.words (seq_of shape.now).0) }
    ensures schedule { shape.now.knobs.workers ≢ 1
        → IfOk result (λ closed. EndsSchedule shape.now list.now closed.words) }
{
    if shape.knobs().workers == 1 {
        return match plain_search(alloc, shape) {
            Ok(closed) => Ok(closed),
            Err(_) => Err(Memory),
        };
    }
    match simulate(alloc, shape, list) {
        Ok(closed) => Ok(closed),
        Err(SimError::Memory) => Err(Memory),
        Err(SimError::NoSuchWalker { .. }) => unreachable!(),
    }
}

/// The turn of mode sim: that of the board without stones, with Black to move, by a schedule.
pub fn simulated_turn(alloc: Global, options: &ModeOptions) -> Result<Turn, Memory>
    requires { AreInRange options.now.knobs }
    ensures turn { IfOk result
        (IsFirstTurn options.now.knobs no_means (empty_board options.now.size) Black) }
    ensures scheduled { IfOk result (FollowsSchedule options.now) }
{
    let knobs = &options.knobs;
    let board = Board::empty(options.size);
    let prepared = prepare(alloc, &board, Colour::Black, knobs)?;
    let list = schedule(alloc, knobs.workers, knobs.seed, options.steps)?;
    let closed = follow(alloc, &prepared.shape, &list)?;
    Ok(decide(prepared.planned, closed))
}

/// The turn of mode bench on its position, with the means of bench: the first that a session with
/// these means owes there.
pub fn benchmarked_turn<R: Threads + Sync, G: Gate + Sync>(
    rt: &R,
    alloc: Global,
    position: &BenchPosition,
    options: &ModeOptions,
    gate: &G,
) -> Result<Turn, Memory>
    requires nobody { winner_of position.now.board ≡ None }
    requires room { (k : ℕ) × (is_empty_at position.now.board k ≡ true) }
    requires ranges { AreInRange options.now.knobs }
    ensures { IfOk result (IsFirstTurn options.now.knobs options.now.means
        position.now.board position.now.colour) }
{
    decided_turn(
        rt,
        alloc,
        &position.board,
        position.colour,
        0,
        &options.knobs,
        options.means,
        gate,
        &mut KeptLook::none(),
    )
}
