//! The turn that is owed on a board.

ghost use Rattle.std.specs.Prelude.{◌≡◌, true, IfOk, is_some};
ghost use Rattle.hex_plan.specs.Good.{looks_ahead};
ghost use Rattle.hex_plan.specs.Openings.{may_move};
ghost use Rattle.hex_plan.specs.Turns.{ChoseAmong, IsLookedAt, searched_cells};
ghost use Rattle.tree_words.specs.Settings.{AreInRange, IsAny};
ghost use Rattle.turn_search.specs.Owed.{IsOwed, MayRestOn};

use hex_board::Board;
use hex_cells::{CellSet, Colour};
use hex_plan::{Means, Memory, Turn, plan, plan_after, turn_shape};
use look_ahead::{Look, Looked, Root};
use search_team::{Gate, search};
use std::alloc::Global;
use std::thread::Threads;
use tree_words::Knobs;

/// What the look-ahead of a session's last turn found, for that of its next one.
#[derive(Drop)]
pub struct KeptLook {
    look: Option<Look>,
}

impl KeptLook {
    /// Nothing.
    pub fn none() -> KeptLook {
        KeptLook { look: None }
    }

    /// Says that the next turn begins with nothing, as the first one does.
    pub fn forget(&mut self) {
        if let Some(look) = self.look.as_mut() {
            look.forget();
        }
    }

    // Takes it, or one by so many workers that found nothing yet.
    fn take(&mut self, alloc: Global, workers: u32) -> Result<Look, Memory> {
        if let Some(look) = self.look.take() {
            return Ok(look);
        }
        match Look::make(alloc, workers) {
            Ok(look) => Ok(look),
            Err(_) => Err(Memory),
        }
    }
}

/// The turn after so many `turns` of a session, on this board with `colour` to move. It is planned
/// with these means. If the plan is a search, a look-ahead, if the means have one, chooses one of
/// the cells that the plan allows, and begins with what is kept; then it is planned once more, by
/// [`plan_after`]. If the plan is still no win, it is searched, by the workers of the knobs, which
/// pass the gate: at the cell that was chosen, or else among those that the plan allows. The
/// search's seed is that of the knobs plus `turns·2^32`, modulo 2^64. What the plan rests on is
/// said too: reports of connections, or a certificate that was found.
///
/// No player is joined on the board, a cell is empty, and the knobs are in their ranges. It refuses
/// only if memory runs out. The call returns if its workers do.
pub fn decided_turn<R: Threads + Sync, G: Gate + Sync>(
    rt: &R,
    alloc: Global,
    board: &Board,
    colour: Colour,
    turns: u64,
    knobs: &Knobs,
    means: Means,
    gate: &G,
    kept: &mut KeptLook,
) -> Result<Turn, Memory>
    requires may { may_move board.now ≡ true }
    requires ranges { AreInRange knobs.now }
    ensures owed { IfOk result (IsOwed knobs.now means board.now colour turns) }
    ensures rests { IfOk result (λ turn. MayRestOn board.now colour means turn.planned.plan) }
{
    let planned = plan(alloc, board, colour, means)?;
    let Some(allowed) = planned.allowed() else {
        return Ok(Turn::won(board, colour, turns, planned));
    };
    let root = Root { board, colour };
    let looked = looked_at(rt, alloc, &root, allowed, knobs.workers, means, kept)?;
    let planned = plan_after(alloc, board, colour, means, planned, &looked)?;
    if planned.is_win() {
        return Ok(Turn::won(board, colour, turns, planned));
    }
    let cells = searched_cells(allowed, &looked);
    let shape = turn_shape(board, colour, cells, knobs, turns);
    let Ok(closed) = search(rt, alloc, &shape, gate) else {
        return Err(Memory);
    };
    Ok(Turn::searched(closed, turns, planned, looked))
}

// What a look-ahead by so many workers finds of the allowed cells, if the means have one.
fn looked_at<R: Threads + Sync>(
    rt: &R,
    alloc: Global,
    root: &Root<'_>,
    allowed: CellSet,
    workers: u32,
    means: Means,
    kept: &mut KeptLook,
) -> Result<Option<Looked>, Memory>
    requires { IsAny allowed }
    ensures there { IfOk result (λ looked. is_some looked ≡ looks_ahead means) }
    ensures chosen { IfOk result (ChoseAmong allowed) }
    ensures look { IfOk result (IsLookedAt root.now.board.now root.now.colour allowed means.look) }
{
    if !means.looks_ahead() {
        return Ok(None);
    }
    let mut look = kept.take(alloc, workers.min(means.look))?;
    match look.choose(rt, alloc, root, allowed, means.look) {
        Ok(looked) => {
            kept.look = Some(look);
            Ok(Some(looked))
        }
        Err(_) => Err(Memory),
    }
}

// The cells that are searched if these are allowed: all, or the one that the look-ahead chose.
fn searched_cells(allowed: CellSet, looked: &Option<Looked>) -> CellSet
    requires any { IsAny allowed }
    requires chosen { ChoseAmong allowed looked.now }
    ensures value { result ≡ searched_cells allowed looked.now }
    ensures any { IsAny result }
{
    match looked {
        None => allowed,
        Some(looked) => CellSet::none().with(looked.cell()),
    }
}
