//! Reports: H-search, small carriers first.

ghost use Rattle.std.specs.Prelude.{◌≡◌, length, option_map};
ghost use Rattle.std.specs.List.{slice_get};
ghost use Rattle.edge_reach.specs.Reports.{report_entries, report_numbers};
ghost use Rattle.edge_reach.specs.declared.entries.End.{End};

use super::circuits::currents_of;
use super::elements::Elements;
use super::entries::{End, Entry, MOST_UNITED, Rule};
use super::found::{Found, Limits};
use super::walks::Walk;
use circuit::Mesh;
use conn_store::Kind;
use hex_board::MOST_ELEMENTS;
use hex_cells::{CellSet, Colour, MOST_CELLS, Size};
use std::alloc::{AllocError, Global};

/// What a report is about: a player with these stones on a board where the cells of the region are
/// empty, and all others are the opponent's.
#[derive(Clone, Copy, Debug, PartialEq, Eq)]
pub struct Question {
    pub size: Size,
    pub player: Colour,
    pub stones: CellSet,
    pub region: CellSet,
}

/// A report goes on over edges if its region has at most so many empty cells. By trial: on size 6
/// that leaves half of the positions to a solver and costs as much time as they did; with more
/// cells it costs more.
pub const MOST_OVER_EDGES: u32 = 30;

/// When a report may end.
#[derive(Clone, Copy, Debug, PartialEq, Eq)]
pub enum Until {
    /// When no rule gives an entry more.
    Closed,
    /// At the first entry between the edges.
    FirstWin,
    /// At a full entry between the edges, or when the semi ones have no cell in common.
    Threats,
}

// A full entry as its one end sees it: the carrier, the number and the other end.
#[derive(Clone, Copy)]
struct Way {
    carrier: CellSet,
    number: u32,
    to: u8,
}

/// Reports, one after another, in the same memory.
#[derive(Drop)]
pub struct Reach {
    elements: Elements,
    found: Found,
    // For each element the full entries that were taken.
    ways: Vec<Vec<Way>>,
    // The semi entries of a pair that were taken.
    others: Vec<(CellSet, u32)>,
    // A semi entry, and those of the others that are united with it.
    united: Vec<u32>,
    // The elements beside an edge, each with the number of the entry that says so.
    beside: Vec<(u8, u32)>,
    walk: Walk,
}

impl Reach {
    /// Memory for reports with these limits on boards of this size.
    pub fn make(alloc: Global, size: Size, limits: Limits) -> Result<Reach, AllocError> {
        let ways = (0..MOST_ELEMENTS).map(|_element| Vec::new(alloc));
        Ok(Reach {
            elements: Elements::none(alloc),
            found: Found::make(alloc, size, limits)?,
            ways: ways.collect(alloc)?,
            others: Vec::new(alloc),
            united: Vec::new(alloc),
            beside: Vec::new(alloc),
            walk: Walk::make(alloc),
        })
    }

    /// The numbers of the entries between the edges.
    pub fn between_edges(&self, kind: Kind) -> &[u32]
        ensures { result.now ≡ report_numbers self.now kind }
    {
        self.found.between_edges(kind)
    }

    /// How many entries there are.
    pub fn count(&self) -> usize
        ensures { result ≡ length (report_entries self.now) }
    {
        self.found.entries().len()
    }

    /// The entry with this number.
    pub fn entry(&self, number: u32) -> Option<&Entry>
        ensures { option_map (λ e. e.now) result ≡ slice_get (report_entries self.now) number }
    {
        self.found.entries().get(number as usize)
    }

    /// The numbers of the entries from which one of the report follows.
    pub fn premises(&self, entry: &Entry) -> &[u32] {
        self.found.premises(entry)
    }

    /// The entries on which one rests, each behind those on which it rests, itself the last.
    pub fn derivation(&mut self, number: u32) -> Result<&[u32], AllocError> {
        self.walk.walk(&self.found, number)
    }

    /// How an element is named at the end of a connection.
    pub fn end(&self, element: u8) -> End
        ensures first { element ≡ 0 → result ≡ End.First }
        ensures second { element ≡ 1 → result ≡ End.Second }
    {
        self.elements.end(element)
    }

    /// The current through each empty cell by the full entries, of which that between the edges is
    /// [`FLOW`](super::FLOW); 0 of other cells. The mesh is room for its circuit.
    pub fn currents(&self, mesh: &mut Mesh) -> [u64; MOST_CELLS as usize] {
        currents_of(&self.elements, &self.found, mesh)
    }

    /// Makes the report that answers the question.
    pub fn report(&mut self, question: &Question, until: Until) -> Result<(), AllocError> {
        self.elements.load(question)?;
        self.found.clear(question.region);
        self.ways.iter_mut().for_each(|ways| ways.clear());
        for element in 1..self.elements.count() {
            self.add_near(element)?;
        }
        self.take_each(until)
    }

    /// Goes on with a report by one rule more: two elements that lie beside an edge are joined over
    /// it. It does so if the region has at most [`MOST_OVER_EDGES`](super::MOST_OVER_EDGES) empty
    /// cells.
    pub fn go_on(&mut self, until: Until) -> Result<(), AllocError> {
        if self.elements.empties().count() <= MOST_OVER_EDGES {
            self.add_over(0)?;
            self.add_over(1)?;
            self.take_each(until)?;
        }
        Ok(())
    }

    // Takes the entries that wait, one after another.
    fn take_each(&mut self, until: Until) -> Result<(), AllocError> {
        for _taken in 0..u32::MAX {
            let Some((number, entry)) = self.found.take() else {
                break;
            };
            if !entry.is_between_edges() {
                self.combine(number, &entry)?;
            }
            if self.is_enough(&entry, until) {
                break;
            }
        }
        Ok(())
    }

    // Adds the entries of an element and those below it that lie side by side.
    fn add_near(&mut self, y: u8) -> Result<(), AllocError> {
        for x in 0..y {
            if self.elements.are_near(x, y) {
                let entry = Entry::of(Kind::Full, x, y, CellSet::none(), Rule::Adjacent);
                self.found.add(entry, &[])?;
            }
        }
        Ok(())
    }

    // Adds a full entry of each two elements that lie beside this edge: the rule of AND over it.
    fn add_over(&mut self, edge: u8) -> Result<(), AllocError> {
        self.found.list_beside(edge, &mut self.beside)?;
        for place in 0..self.beside.len() {
            self.add_from(place)?;
        }
        Ok(())
    }

    // Adds those of the element at a place and the ones before it.
    fn add_from(&mut self, place: usize) -> Result<(), AllocError> {
        if let Some((y, number)) = self.beside.get(place).copied() {
            for (x, other) in self.beside.iter().take(place) {
                let entry = Entry::of(Kind::Full, *x, y, CellSet::none(), Rule::And);
                self.found.add(entry, &[number, *other])?;
            }
        }
        Ok(())
    }

    // Whether the report may end behind this entry.
    fn is_enough(&self, entry: &Entry, until: Until) -> bool {
        match until {
            Until::Closed => false,
            Until::FirstWin => entry.is_between_edges(),
            Until::Threats => {
                entry.is_between_edges() && entry.kind == Kind::Full || self.found.common.is_empty()
            }
        }
    }

    // Adds what follows from an entry with those that were taken before it.
    fn combine(&mut self, number: u32, entry: &Entry) -> Result<(), AllocError> {
        match entry.kind {
            // The rule of OR, with others of its pair.
            Kind::Semi => {
                let common = self.found.list_others(entry, number, &mut self.others)?;
                self.unite_few(number, entry)?;
                if common.is_empty() {
                    self.unite_many(number, entry)?;
                }
                Ok(())
            }
            Kind::Full => {
                self.join(number, entry, entry.y, entry.x)?;
                self.join(number, entry, entry.x, entry.y)?;
                self.add_ways(number, entry)
            }
        }
    }

    // Says that a full entry leads from each of its elements to the other. None is joined at an
    // edge here.
    fn add_ways(&mut self, number: u32, entry: &Entry) -> Result<(), AllocError> {
        let carrier = entry.carrier;
        for (from, to) in [(entry.x, entry.y), (entry.y, entry.x)] {
            if 1 < from
                && let Some(ways) = self.ways.get_mut(from as usize)
            {
                ways.push(Way {
                    carrier,
                    number,
                    to,
                })?;
            }
        }
        Ok(())
    }

    // The rules of AND: a full entry, from `end` to `middle`, with those that lead on from there.
    fn join(&mut self, number: u32, entry: &Entry, end: u8, middle: u8) -> Result<(), AllocError> {
        let Some(ways) = self.ways.get(middle as usize) else {
            return Ok(());
        };
        let between = self.elements.alone(middle);
        let ours = entry.carrier.union(self.elements.alone(end));
        for way in ways {
            if way.to != end
                && !way.carrier.meets(ours)
                && !self.elements.cells(way.to).meets(entry.carrier)
            {
                let (kind, rule) = if between.is_empty() {
                    (Kind::Full, Rule::And)
                } else {
                    (Kind::Semi, Rule::Key)
                };
                let carrier = entry.carrier.union(way.carrier).union(between);
                let joined = Entry::of(kind, end, way.to, carrier, rule);
                self.found.add(joined, &[number, way.number])?;
            }
        }
        Ok(())
    }

    // The rule of OR with one or two others.
    fn unite_few(&mut self, number: u32, entry: &Entry) -> Result<(), AllocError> {
        let (x, y) = (entry.x, entry.y);
        for (place, (carrier, second)) in self.others.iter().enumerate() {
            let common = entry.carrier.meet(*carrier);
            let both = entry.carrier.union(*carrier);
            if common.is_empty() {
                let united = Entry::of(Kind::Full, x, y, both, Rule::Or);
                self.found.add(united, &[number, *second])?;
                continue;
            }
            for (carrier, third) in self.others.iter().take(place) {
                if !common.meets(*carrier) {
                    let united = Entry::of(Kind::Full, x, y, both.union(*carrier), Rule::Or);
                    self.found.add(united, &[number, *second, *third])?;
                }
            }
        }
        Ok(())
    }

    // The rule of OR with three or more others, until all together have no cell in common: one
    // entry, by greed, if it takes at most [`MOST_UNITED`].
    fn unite_many(&mut self, number: u32, entry: &Entry) -> Result<(), AllocError> {
        let (mut common, mut union) = (entry.carrier, entry.carrier);
        self.united.clear();
        self.united.push(number)?;
        for _other in 1..MOST_UNITED {
            let Some((carrier, other)) = best_beside(&self.others, common, union) else {
                break;
            };
            common = common.meet(carrier);
            union = union.union(carrier);
            self.united.push(other)?;
        }
        if common.is_empty() && 3 < self.united.len() {
            let united = Entry::of(Kind::Full, entry.x, entry.y, union, Rule::Or);
            self.found.add(united, &self.united)?;
        }
        Ok(())
    }
}

// Of the entries that leave fewer cells in common the one that takes away the most for each cell
// that its carrier adds, these taken as two more. By trial.
fn best_beside(
    others: &[(CellSet, u32)],
    common: CellSet,
    union: CellSet,
) -> Option<(CellSet, u32)> {
    let mut best = None;
    let (mut best_gain, mut best_price) = (0u32, 1u32);
    for (carrier, other) in others {
        let gain = common.minus(*carrier).count();
        let price = carrier.minus(union).count() + 2;
        if best_gain.saturating_mul(price) < gain.saturating_mul(best_price) {
            best = Some((*carrier, *other));
            (best_gain, best_price) = (gain, price);
        }
    }
    best
}
