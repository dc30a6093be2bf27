//! Derivations of entries between the edges, by H-search.

use super::pools::{Derivation, Places, Step};
use conn_store::Kind;
use edge_reach::{Entry, Limits, MOST_FULL, MOST_SEMI, Question, Reach, Rule, Until};
use hex_cells::{CellSet, Colour, Size};
use indexmap::IndexMap;
use std::alloc::{AllocError, Global};

// How much a report for derivations keeps: as much as one may. Of equal entries it keeps the one
// with fewer lines.
const LIMITS: Limits = Limits {
    full: MOST_FULL,
    semi: MOST_SEMI,
    edge_semi: 64,
    counts_lines: true,
};

/// Makes the derivations of a player's entries, and keeps them.
#[derive(Drop)]
pub(crate) struct Deriver {
    alloc: Global,
    size: Size,
    /// Whose entries they are.
    pub player: Colour,
    reach: Reach,
    // For stones and a region what was derived there.
    known: IndexMap<(u128, u128), Vec<Derivation>>,
}

impl Deriver {
    /// Derivations of a player's entries on boards of this size.
    pub(crate) fn make(alloc: Global, size: Size, player: Colour) -> Result<Deriver, AllocError> {
        Ok(Deriver {
            alloc,
            size,
            player,
            reach: Reach::make(alloc, size, LIMITS)?,
            known: IndexMap::new(alloc),
        })
    }

    /// The derivations of all entries that are found inside a region.
    pub(crate) fn derive(
        &mut self,
        stones: CellSet,
        region: CellSet,
    ) -> Result<&[Derivation], AllocError> {
        let place = (stones.bits(), region.bits());
        if !self.known.contains_key(&place) {
            let question = Question {
                size: self.size,
                player: self.player,
                stones,
                region,
            };
            self.reach.report(&question, Until::Closed)?;
            self.reach.go_on(Until::Closed)?;
            let mut list = Vec::new(self.alloc);
            take_out(self.alloc, &mut self.reach, Kind::Full, &mut list)?;
            take_out(self.alloc, &mut self.reach, Kind::Semi, &mut list)?;
            self.known.insert(place, list)?;
        }
        match self.known.get(&place) {
            Some(list) => Ok(list),
            None => Ok(&[]),
        }
    }

    /// Whether a full entry is found inside a region, or semi ones that have no cell in common, so
    /// that cases show one.
    pub(crate) fn finds_full(
        &mut self,
        stones: CellSet,
        region: CellSet,
    ) -> Result<bool, AllocError> {
        let list = self.derive(stones, region)?;
        let carriers = list.iter().map(|derivation| derivation.carrier);
        let common = carriers.fold(region, |common, carrier| common.meet(carrier));
        let has_full = list.iter().any(|derivation| derivation.kind == Kind::Full);
        Ok(has_full || !list.is_empty() && common.is_empty())
    }
}

// Lists the entries of a kind between the edges.
fn take_out(
    alloc: Global,
    reach: &mut Reach,
    kind: Kind,
    list: &mut Vec<Derivation>,
) -> Result<(), AllocError> {
    let mut places = vec![in alloc; 0usize; reach.count()]?;
    for number in reach.between_edges(kind).to_vec(alloc)? {
        if let Some(carrier) = reach.entry(number).map(|entry| entry.carrier) {
            let steps = steps_of(alloc, reach, number, &mut places)?;
            list.push(Derivation {
                kind,
                carrier,
                steps,
            })?;
        }
    }
    Ok(())
}

// The lines of an entry. The places are those of the report's entries among them.
fn steps_of(
    alloc: Global,
    reach: &mut Reach,
    number: u32,
    places: &mut [usize],
) -> Result<Vec<Step>, AllocError> {
    let order = reach.derivation(number)?.to_vec(alloc)?;
    let mut steps = Vec::new(alloc);
    for number in order {
        if let Some(entry) = reach.entry(number)
            && let Some(place) = places.get_mut(number as usize)
        {
            *place = steps.len();
            steps.push(step_of(reach, entry, places))?;
        }
    }
    Ok(steps)
}

// The line of an entry, by the places of its premises.
fn step_of(reach: &Reach, entry: &Entry, places: &[usize]) -> Step {
    if entry.rule == Rule::Adjacent {
        let (x, y) = (reach.end(entry.x), reach.end(entry.y));
        return Step::Adj(x.min(y), x.max(y));
    }
    Step::By(entry.rule, Places::at(places, reach.premises(entry)))
}
