//! Full entries by cases of semi ones.

ghost use Rattle.std.specs.Prelude.{◌≡◌, slice_get, IfOk, IfSome};
ghost use Rattle.edge_tables.specs.Covers.{IsByCases, IsOfCases, cases_at};

use super::covers::{Costs, cover};
use super::entries::EdgeEntry;
use hex_cells::CellSet;
use std::alloc::{AllocError, Global};

// What a case costs, in sixteenths: 1, 2 for each cell that it adds, and the natural logarithm of
// its lines, which is 11 sixteenths of the binary one. By trial.
const BASE_COST: u64 = 16;

const CELL_COST: u64 = 32;

const DIGIT_COST: u64 = 11;

/// The full entry by cases of few of these semi ones, which have no cell in common inside the
/// region, so that it is narrow; `None` if there are no such.
pub fn by_cases(
    alloc: Global,
    entries: &[EdgeEntry],
    region: CellSet,
) -> Result<Option<EdgeEntry>, AllocError>
    ensures { IfOk result (λ found. IfSome found (IsByCases region entries.now)) }
{
    let carriers: Vec<CellSet> = entries.iter().map(|entry| entry.carrier).collect(alloc)?;
    let union = CellSet::none();
    let mut costs = CaseCosts { entries, union };
    let chosen = cover(alloc, &carriers, region, &mut costs)?;
    if chosen.is_empty() {
        return Ok(None);
    }
    Ok(Some(together(entries, &chosen)))
}

// The entry by cases of those at these places.
fn together(entries: &[EdgeEntry], places: &[usize]) -> EdgeEntry
    ensures { IsOfCases (cases_at entries.now places.now) result }
{
    let mut carrier = CellSet::none();
    let mut lines = 1u32;
    for entry in places.iter().filter_map(|place| entry_at(entries, *place)) {
        carrier = carrier.union(entry.carrier);
        lines = lines.saturating_add(entry.lines);
    }
    EdgeEntry {
        carrier,
        lines,
        report: None,
    }
}

// The entry at a place of the list.
fn entry_at(entries: &[EdgeEntry], place: usize) -> Option<EdgeEntry>
    ensures { result ≡ slice_get entries.now place }
{
    entries.get(place).copied()
}

// What entries cost as cases of one that is to be narrow.
#[derive(Drop)]
struct CaseCosts<'a> {
    entries: &'a [EdgeEntry],
    // The cells of those that are taken.
    union: CellSet,
}

impl CaseCosts<'_> {
    // The entry at a place, with those of its cells alone that others don't have.
    fn added(&self, place: usize) -> Option<EdgeEntry> {
        let mut entry = entry_at(self.entries, place)?;
        entry.carrier = entry.carrier.minus(self.union);
        Some(entry)
    }
}

impl Costs for CaseCosts<'_> {
    fn begin(&mut self) {
        self.union = CellSet::none();
    }

    fn price(&self, place: usize) -> Option<u64> {
        let added = self.added(place)?;
        let cells = u64::from(added.carrier.count());
        let digits = u64::from(added.lines.saturating_add(1).ilog2());
        Some(BASE_COST + CELL_COST * cells + DIGIT_COST * digits)
    }

    fn take(&mut self, place: usize) -> Option<u64> {
        let added = self.added(place)?;
        self.union = self.union.union(added.carrier);
        Some(added.width())
    }
}
