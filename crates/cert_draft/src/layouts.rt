//! The lines of a draft, one after another.

use super::drafts::{At, Block, Draft};
use super::pools::Step;
use edge_reach::{End, Rule};
use hex_cells::{Cell, CellSet};
use std::alloc::{AllocError, Global};

/// How a line follows from those that it takes.
#[derive(Clone, Copy, PartialEq, Eq)]
pub(crate) enum How {
    /// It takes none: the elements lie side by side.
    Adj(End, End),
    /// By a rule, from entries of the same scope.
    By(Rule),
    /// By a stone on the cell.
    Stone(Cell),
    /// By cases.
    Cases,
}

/// A line: the player's stones in its scope, and the places of the lines before it that it takes.
#[derive(Drop)]
pub(crate) struct Row {
    pub stones: CellSet,
    pub how: How,
    pub takes: Vec<usize>,
}

/// The lines, and the place of the one that is claimed.
#[derive(Drop)]
pub(crate) struct Rows {
    pub list: Vec<Row>,
    pub claim: usize,
}

// The places of a scope's lines: of each line of its pool, that of a chosen one its own, and of
// the first line by a stone and the first by cases.
#[derive(Drop)]
struct Layout {
    derived: Vec<usize>,
    moves: usize,
    cases: usize,
}

impl Row {
    /// The stones with which it takes entries if it is written with these.
    pub(crate) fn taking(&self, stones: CellSet) -> CellSet {
        match self.how {
            How::Stone(cell) => stones.with(cell),
            _ => stones,
        }
    }
}

/// The lines of a draft. Scopes come from the last to the first, so what a line takes comes before
/// it.
pub(crate) fn rows_of(draft: &Draft) -> Result<Rows, AllocError> {
    let layouts = layouts_of(draft)?;
    let mut rows = Rows {
        list: Vec::new(draft.alloc),
        claim: place_of(draft, &layouts, 0),
    };
    push_blocks(draft, &layouts, &mut rows.list)?;
    Ok(rows)
}

// The lines of all scopes.
fn push_blocks(draft: &Draft, layouts: &[Layout], list: &mut Vec<Row>) -> Result<(), AllocError> {
    for (block, layout) in draft.blocks.values().zip(layouts.iter()).rev() {
        push_block(draft, layouts, block, layout, list)?;
    }
    Ok(())
}

// The layout of each scope.
fn layouts_of(draft: &Draft) -> Result<Vec<Layout>, AllocError> {
    let mut layouts = Vec::new(draft.alloc);
    let mut end = 0usize;
    for block in draft.blocks.values().rev() {
        let layout = layout_of(draft.alloc, block, end)?;
        end = layout.cases.saturating_add(block.cases.len());
        layouts.push(layout)?;
    }
    layouts.reverse();
    Ok(layouts)
}

// The layout of a scope whose first line has this place.
fn layout_of(alloc: Global, block: &Block, first: usize) -> Result<Layout, AllocError> {
    let mut derived = Vec::new(alloc);
    let mut next = first;
    for is_chosen in block.pool.chosen.iter() {
        derived.push(next)?;
        next = next.saturating_add(usize::from(*is_chosen));
    }
    Ok(Layout {
        derived,
        moves: next,
        cases: next.saturating_add(block.moves.len()),
    })
}

// The place of the line that shows a need; past the last if it isn't served.
fn place_of(draft: &Draft, layouts: &[Layout], need: usize) -> usize {
    served_at(draft, layouts, need).unwrap_or(usize::MAX)
}

fn served_at(draft: &Draft, layouts: &[Layout], need: usize) -> Option<usize> {
    let need = draft.needs.get(need)?;
    let layout = layouts.get(need.scope)?;
    Some(match need.line? {
        At::Derived(place) => *layout.derived.get(place)?,
        At::Stone(place) => layout.moves.saturating_add(place),
        At::Cases(place) => layout.cases.saturating_add(place),
    })
}

// The lines of a scope.
fn push_block(
    draft: &Draft,
    layouts: &[Layout],
    block: &Block,
    layout: &Layout,
    list: &mut Vec<Row>,
) -> Result<(), AllocError> {
    push_derived(draft.alloc, block, layout, list)?;
    push_moves(draft, layouts, block, list)?;
    push_cases(draft, layouts, block, list)
}

// Those of H-search that are chosen.
fn push_derived(
    alloc: Global,
    block: &Block,
    layout: &Layout,
    list: &mut Vec<Row>,
) -> Result<(), AllocError> {
    let stones = block.stones;
    for (step, is_chosen) in block.pool.steps.iter().zip(block.pool.chosen.iter()) {
        if *is_chosen {
            let (how, takes) = derived(alloc, layout, *step)?;
            list.push(Row { stones, how, takes })?;
        }
    }
    Ok(())
}

// Those by a stone.
fn push_moves(
    draft: &Draft,
    layouts: &[Layout],
    block: &Block,
    list: &mut Vec<Row>,
) -> Result<(), AllocError> {
    let stones = block.stones;
    for stone in block.moves.iter() {
        let takes = vec![in draft.alloc; place_of(draft, layouts, stone.need); 1]?;
        let how = How::Stone(stone.cell);
        list.push(Row { stones, how, takes })?;
    }
    Ok(())
}

// Those by cases.
fn push_cases(
    draft: &Draft,
    layouts: &[Layout],
    block: &Block,
    list: &mut Vec<Row>,
) -> Result<(), AllocError> {
    let stones = block.stones;
    for cases in block.cases.iter() {
        let takes = cases.iter().map(|need| place_of(draft, layouts, *need));
        let (how, takes) = (How::Cases, takes.collect(draft.alloc)?);
        list.push(Row { stones, how, takes })?;
    }
    Ok(())
}

// How a derived line follows, and what it takes.
fn derived(alloc: Global, layout: &Layout, step: Step) -> Result<(How, Vec<usize>), AllocError> {
    match step {
        Step::Adj(x, y) => Ok((How::Adj(x, y), Vec::new(alloc))),
        Step::By(rule, premises) => {
            let places = premises.as_slice().iter();
            let takes = places.filter_map(|place| layout.derived.get(*place as usize).copied());
            Ok((How::By(rule), takes.collect(alloc)?))
        }
    }
}
