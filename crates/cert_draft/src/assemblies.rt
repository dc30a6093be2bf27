//! Drafts of a certificate, made of what a search found: scopes from few stones to many, each
//! written once. An entry by a stone needs one with a stone more, so all needs of a scope are there
//! before its turn.

use super::claims::claim_for;
use super::derivers::Deriver;
use super::drafts::{At, Draft, MOST_NEEDS, Need, Stone};
use super::pools::choose;
use super::prices::{By, Way};
use super::scenes::{Scene, Shown};
use conn_store::Kind;
use edge_tables::{FinderStop, Tables};
use hex_cells::CellSet;
use hex_scout::State;
use std::alloc::{AllocError, Global};
use std::mem::swap;

// The place of the first need, which is what the certificate claims.
const CLAIM: usize = 0;

// A scope that is being written: its place, and those of its needs that are not served.
#[derive(Drop)]
struct Writing {
    scope: usize,
    scene: Scene,
    open: Vec<Need>,
}

/// A draft that shows that the deriver's player wins at the root. It stops with
/// [`FinderStop::NoWay`] if something is missing.
pub(crate) fn assemble(
    alloc: Global,
    deriver: &mut Deriver,
    tables: &Tables,
    root: &State,
) -> Result<Draft, FinderStop> {
    let player = deriver.player;
    let mut draft = Draft::new(alloc, player);
    let kind = claim_for(player, root.mover);
    draft.add_need(root.board.stones(player), kind, root.board.empties())?;
    for scope in 0..MOST_NEEDS {
        if draft.blocks.len() <= scope {
            return Ok(draft);
        }
        show(deriver, tables, &mut draft, scope)?;
    }
    Err(FinderStop::Full)
}

// Writes the lines of a scope, so that all its needs are served.
fn show(
    deriver: &mut Deriver,
    tables: &Tables,
    draft: &mut Draft,
    scope: usize,
) -> Result<(), FinderStop> {
    let stones = draft.block_mut(scope)?.stones;
    let open = draft.needs_of(scope)?;
    let scene = Scene::make(deriver, tables, draft, stones, &open)?;
    let mut writing = Writing { scope, scene, open };
    writing.write(deriver, draft)
}

// The full needs, those with fewer cells first.
fn fulls_of(alloc: Global, needs: &[Need]) -> Result<Vec<Need>, AllocError> {
    let fulls = needs.iter().filter(|need| need.kind == Kind::Full);
    let mut fulls: Vec<Need> = fulls.copied().collect(alloc)?;
    fulls.sort_unstable_by_key(|need| (need.region.count(), need.region.bits(), need.place));
    Ok(fulls)
}

impl Writing {
    // Serves all needs of the scope, and hands its lines to the draft.
    fn write(&mut self, deriver: &mut Deriver, draft: &mut Draft) -> Result<(), FinderStop> {
        let fulls = fulls_of(draft.alloc, &self.open)?;
        self.open.retain(|need| need.kind == Kind::Semi);
        for need in fulls {
            self.serve_full(draft, need)?;
        }
        if self.open.iter().any(|need| need.place == CLAIM) {
            self.scene.find_stone(deriver)?;
        }
        self.serve_open(draft)?;
        swap(&mut draft.block_mut(self.scope)?.pool, &mut self.scene.pool);
        Ok(())
    }

    // Serves a full need by what costs least.
    fn serve_full(&mut self, draft: &mut Draft, need: Need) -> Result<(), FinderStop> {
        let (_cost, shown) = self.scene.cheapest(need.region)?.ok_or(FinderStop::NoWay)?;
        let line = match shown {
            Shown::Derived(place) => self.choose(place)?,
            Shown::Cases => {
                let cases = self.scene.cases(need.region)?;
                let (_cost, carriers) = cases.ok_or(FinderStop::NoWay)?;
                self.add_cases(draft, &carriers)?
            }
        };
        draft.serve(&[need], line);
        Ok(())
    }

    // Chooses the lines of a derived entry: its own.
    fn choose(&mut self, place: usize) -> Result<At, FinderStop> {
        let derived = self.scene.have.get(place).ok_or(FinderStop::NoWay)?;
        choose(&mut self.scene.pool.chosen, &derived.places);
        Ok(At::Derived(derived.own))
    }

    // Adds a line by cases with these carriers, which are open needs.
    fn add_cases(&mut self, draft: &mut Draft, carriers: &[CellSet]) -> Result<At, FinderStop> {
        let mut cases = Vec::new(draft.alloc);
        for carrier in carriers {
            let need = draft.add_need(self.scene.stones, Kind::Semi, *carrier)?;
            cases.push(need.place)?;
            self.open.push(need)?;
        }
        let block = draft.block_mut(self.scope)?;
        let line = At::Cases(block.cases.len());
        block.cases.push(cases)?;
        Ok(line)
    }

    // Serves the open needs, by what costs least a need.
    fn serve_open(&mut self, draft: &mut Draft) -> Result<(), FinderStop> {
        for _pick in 0..self.open.len() {
            let Some(way) = self.best_way() else { break };
            let served = self.open.iter().filter(|need| way.serves(need));
            let served: Vec<Need> = served.copied().collect(draft.alloc)?;
            let line = self.line_of(draft, &way)?;
            draft.serve(&served, line);
            self.open.retain(|need| !way.serves(need));
        }
        let are_served = self.open.is_empty();
        are_served.then_some(()).ok_or(FinderStop::NoWay)
    }

    // The way that costs least for each open need that it serves. What is claimed is served by a
    // stone, if one is listed, since a caller plays it.
    fn best_way(&self) -> Option<Way> {
        let is_claim = self.open.iter().any(|need| need.place == CLAIM);
        let by_stone = is_claim && self.scene.ways.iter().any(|way| way.is_stone());
        let mut best = None;
        let (mut best_cost, mut best_count) = (1u64, 0u64);
        for way in self.scene.ways.iter() {
            let count = self.open.iter().filter(|need| way.serves(need)).count() as u64;
            if 0 < count && (!by_stone || way.is_stone()) {
                let cost = self.scene.cost(way).saturating_add(1);
                if cost.saturating_mul(best_count) < best_cost.saturating_mul(count) {
                    best = Some(*way);
                    (best_cost, best_count) = (cost, count);
                }
            }
        }
        best
    }

    // The line of a way, which is chosen or added.
    fn line_of(&mut self, draft: &mut Draft, way: &Way) -> Result<At, FinderStop> {
        let cell = match way.by {
            By::Derived(place) => return self.choose(place),
            By::Stone(cell, _price) => cell,
        };
        let (stones, region) = (self.scene.stones.with(cell), way.carrier.without(cell));
        let need = draft.add_need(stones, Kind::Full, region)?.place;
        let block = draft.block_mut(self.scope)?;
        let line = At::Stone(block.moves.len());
        block.moves.push(Stone { cell, need })?;
        Ok(line)
    }
}
