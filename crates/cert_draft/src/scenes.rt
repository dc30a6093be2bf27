//! What may be shown in a scope, and how it is shown most cheaply.

use super::derivers::Deriver;
use super::drafts::{Draft, Need};
use super::pools::{Derived, Pool, choose};
use super::prices::{By, LINE, Way, derived_cost, stone_price};
use conn_store::Kind;
use edge_reach::cells_of;
use edge_tables::{Costs, Tables, cost_of, cover};
use hex_cells::{Cell, CellSet};
use indexmap::IndexSet;
use std::alloc::{AllocError, Global};

/// A scope that is to be shown: the lines that may be written there, and its semi entries.
#[derive(Drop)]
pub(crate) struct Scene {
    pub alloc: Global,
    pub stones: CellSet,
    pub pool: Pool,
    pub have: Vec<Derived>,
    pub ways: Vec<Way>,
    // Those in which H-search looked.
    regions: IndexSet<u128>,
}

/// How a full entry is shown.
#[derive(Clone, Copy, PartialEq, Eq)]
pub(crate) enum Shown {
    /// By the derived entry with this number.
    Derived(usize),
    /// By cases.
    Cases,
}

impl Scene {
    /// The scope with these stones, which is to serve the needs.
    pub(crate) fn make(
        deriver: &mut Deriver,
        tables: &Tables,
        draft: &Draft,
        stones: CellSet,
        needs: &[Need],
    ) -> Result<Scene, AllocError> {
        let mut scene = Scene::bare(draft.alloc, stones);
        scene.derive_all(deriver, tables, draft, needs)?;
        scene.list_all(tables, draft, needs)?;
        Ok(scene)
    }

    // The scope with these stones, in which nothing is derived or listed.
    fn bare(alloc: Global, stones: CellSet) -> Scene {
        Scene {
            alloc,
            stones,
            pool: Pool::new(alloc),
            have: Vec::new(alloc),
            ways: Vec::new(alloc),
            regions: IndexSet::new(alloc),
        }
    }

    // Derives what may serve the needs.
    fn derive_all(
        &mut self,
        deriver: &mut Deriver,
        tables: &Tables,
        draft: &Draft,
        needs: &[Need],
    ) -> Result<(), AllocError> {
        for need in needs {
            self.derive(deriver, need.region)?;
        }
        self.derive_reported(deriver, tables, draft, Kind::Full, needs)?;
        self.derive_reported(deriver, tables, draft, Kind::Semi, needs)
    }

    // Lists the semi entries that may serve the needs.
    fn list_all(
        &mut self,
        tables: &Tables,
        draft: &Draft,
        needs: &[Need],
    ) -> Result<(), AllocError> {
        let regions = needs.iter().map(|need| need.region);
        let region = regions.fold(CellSet::none(), |all, region| all.union(region));
        self.list_derived()?;
        for cell in cells_of(region) {
            self.list_stone(tables, draft, cell, region)?;
        }
        Ok(())
    }

    // Derives what H-search finds inside the region, if that wasn't done.
    fn derive(&mut self, deriver: &mut Deriver, region: CellSet) -> Result<(), AllocError> {
        let (_place, is_new) = self.regions.insert_full(region.bits())?;
        if is_new {
            for derivation in deriver.derive(self.stones, region)? {
                self.have.push(self.pool.pour(derivation)?)?;
            }
        }
        Ok(())
    }

    // Derives the entries that the search had by reports, if none is there that serves as well: by
    // a report in the carrier, and if that misses one in the region where the search had it.
    fn derive_reported(
        &mut self,
        deriver: &mut Deriver,
        tables: &Tables,
        draft: &Draft,
        kind: Kind,
        needs: &[Need],
    ) -> Result<(), AllocError> {
        let key = draft.key(kind, self.stones);
        for entry in tables.entries(&key).iter().rev() {
            if let Some(region) = entry.report
                && needs.iter().any(|need| entry.carrier.inside(need.region))
            {
                self.derive_missing(deriver, kind, entry.carrier, entry.carrier)?;
                self.derive_missing(deriver, kind, entry.carrier, region)?;
            }
        }
        Ok(())
    }

    // Derives what H-search finds inside the region, if no entry of this kind inside the carrier is
    // derived.
    fn derive_missing(
        &mut self,
        deriver: &mut Deriver,
        kind: Kind,
        carrier: CellSet,
        region: CellSet,
    ) -> Result<(), AllocError> {
        if self.has(kind, carrier) {
            return Ok(());
        }
        self.derive(deriver, region)
    }

    // Whether an entry of this kind inside the carrier is derived.
    fn has(&self, kind: Kind, carrier: CellSet) -> bool {
        self.have.iter().any(|derived| derived.kind == kind && derived.carrier.inside(carrier))
    }

    // Lists the semi entries that are derived.
    fn list_derived(&mut self) -> Result<(), AllocError> {
        for (place, derived) in self.have.iter().enumerate() {
            if derived.kind == Kind::Semi {
                let (carrier, by) = (derived.carrier, By::Derived(place));
                self.ways.push(Way { carrier, by })?;
            }
        }
        Ok(())
    }

    // Lists the semi entries inside the region by a stone on the cell.
    fn list_stone(
        &mut self,
        tables: &Tables,
        draft: &Draft,
        cell: Cell,
        region: CellSet,
    ) -> Result<(), AllocError> {
        let stones = self.stones.with(cell);
        for full in tables.entries(&draft.key(Kind::Full, stones)).iter().rev() {
            if full.carrier.inside(region.without(cell)) {
                let by = By::Stone(cell, stone_price(draft, stones, full));
                let carrier = full.carrier.with(cell);
                self.ways.push(Way { carrier, by })?;
            }
        }
        Ok(())
    }

    /// Lists a semi entry by a stone, if none is and H-search finds one inside the carrier of a
    /// derived one. A stone on the cell over which that follows wins; but H-search, which keeps no
    /// more entries of a pair than its limits say, may not see it.
    pub(crate) fn find_stone(&mut self, deriver: &mut Deriver) -> Result<(), AllocError> {
        if self.ways.iter().any(|way| way.is_stone()) {
            return Ok(());
        }
        for derived in self.have.iter() {
            if derived.kind == Kind::Semi
                && let Some(cell) = self.stone_inside(deriver, derived.carrier)?
            {
                let (carrier, by) = (derived.carrier, By::Stone(cell, LINE));
                self.ways.push(Way { carrier, by })?;
                return Ok(());
            }
        }
        Ok(())
    }

    // A cell of the carrier such that after a stone there the rest is the carrier of a full entry.
    fn stone_inside(
        &self,
        deriver: &mut Deriver,
        carrier: CellSet,
    ) -> Result<Option<Cell>, AllocError> {
        for cell in cells_of(carrier) {
            if deriver.finds_full(self.stones.with(cell), carrier.without(cell))? {
                return Ok(Some(cell));
            }
        }
        Ok(None)
    }

    // What a way costs beside the lines that are chosen.
    pub(crate) fn cost(&self, way: &Way) -> u64 {
        way.cost(&self.pool.chosen, &self.have)
    }

    /// The cheapest way to show a full entry inside a region, and what it costs.
    pub(crate) fn cheapest(&self, region: CellSet) -> Result<Option<(u64, Shown)>, AllocError> {
        let cases = self.cases(region)?;
        let mut best = cases.map(|(cost, _carriers)| (cost, Shown::Cases));
        for (place, derived) in self.have.iter().enumerate() {
            if derived.kind == Kind::Full && derived.carrier.inside(region) {
                let cost = derived_cost(&self.pool.chosen, derived);
                if best.is_none_or(|best| cost < best.0) {
                    best = Some((cost, Shown::Derived(place)));
                }
            }
        }
        Ok(best)
    }

    /// What it costs to show a full entry inside a region by cases, and their carriers; `None` if
    /// there are no such.
    pub(crate) fn cases(&self, region: CellSet) -> Result<Option<(u64, Vec<CellSet>)>, AllocError> {
        let ways = self.ways_inside(region)?;
        let carriers = ways.iter().map(|way| way.carrier);
        let carriers: Vec<CellSet> = carriers.collect(self.alloc)?;
        self.cases_among(&ways, &carriers, region)
    }

    // The ways inside a region, the cheapest first.
    fn ways_inside(&self, region: CellSet) -> Result<Vec<Way>, AllocError> {
        let inside = self.ways.iter().filter(|way| way.carrier.inside(region));
        let mut ways: Vec<Way> = inside.copied().collect(self.alloc)?;
        ways.sort_by_key(|way| self.cost(way))?;
        Ok(ways)
    }

    // What it costs to show a full entry inside a region by cases of these ways, which have these
    // carriers, and those of the cases.
    fn cases_among(
        &self,
        ways: &[Way],
        carriers: &[CellSet],
        region: CellSet,
    ) -> Result<Option<(u64, Vec<CellSet>)>, AllocError> {
        let mut costs = WayCosts {
            scene: self,
            ways,
            over: self.pool.chosen.to_vec(self.alloc)?,
        };
        let chosen = cover(self.alloc, carriers, region, &mut costs)?;
        if chosen.is_empty() {
            return Ok(None);
        }
        let cost = LINE.saturating_add(cost_of(&mut costs, &chosen));
        let chosen = chosen
            .iter()
            .filter_map(|place| carriers.get(*place).copied());
        Ok(Some((cost, chosen.collect(self.alloc)?)))
    }
}

// What ways cost as cases of one line. Those that are taken share lines.
#[derive(Drop)]
struct WayCosts<'a> {
    scene: &'a Scene,
    ways: &'a [Way],
    // The lines that are chosen, and those of the ways that are taken.
    over: Vec<bool>,
}

impl WayCosts<'_> {
    // What the way at a place costs beside these lines.
    fn cost(&self, place: usize) -> Option<u64> {
        let way = self.ways.get(place)?;
        Some(way.cost(&self.over, &self.scene.have))
    }
}

impl Costs for WayCosts<'_> {
    fn begin(&mut self) {
        for (is_over, is_chosen) in self.over.iter_mut().zip(self.scene.pool.chosen.iter()) {
            *is_over = *is_chosen;
        }
    }

    // One line more, so that few ways are taken.
    fn price(&self, place: usize) -> Option<u64> {
        self.cost(place).map(|cost| LINE.saturating_add(cost))
    }

    fn take(&mut self, place: usize) -> Option<u64> {
        let cost = self.cost(place)?;
        if let Some(way) = self.ways.get(place)
            && let By::Derived(number) = way.by
            && let Some(derived) = self.scene.have.get(number)
        {
            choose(&mut self.over, &derived.places);
        }
        Some(cost)
    }
}
