//! What a report found so far: its entries, by pair and kind.

ghost use Rattle.std.specs.Prelude.{◌≡◌};
ghost use Rattle.edge_reach.specs.Reports.{edge_numbers};

use super::entries::{Entry, Rule, State, give_up};
use super::held::{Held, MOST_FULL, MOST_SEMI};
use super::queues::Queue;
use conn_store::Kind;
use hex_cells::{CellSet, Size};
use std::alloc::{AllocError, Global};

/// How much a report keeps.
#[derive(Clone, Copy, Debug, PartialEq, Eq)]
pub struct Limits {
    /// Full entries of a pair, at most [`MOST_FULL`].
    pub full: usize,
    /// Semi entries of a pair that isn't the edges, at most [`MOST_SEMI`].
    pub semi: usize,
    /// Semi entries between the edges. Beyond them one is kept if it leaves fewer cells in common.
    pub edge_semi: usize,
    /// Whether lines are counted, and an entry that is found again takes the shorter derivation.
    pub counts_lines: bool,
}

// No derivation is said to have more lines.
const MOST_LINES: u32 = 1 << 28;

/// The entries of a report.
#[derive(Drop)]
pub(crate) struct Found {
    limits: Limits,
    entries: Vec<Entry>,
    // What became of each. These stand apart, since most are read without their entries.
    states: Vec<State>,
    // The premises of the entries, those of one behind those of another.
    premises: Vec<u32>,
    fulls: Held,
    semis: Held,
    queue: Queue,
    edge_full: Vec<u32>,
    edge_semi: Vec<u32>,
    /// The cells that all semi entries between the edges have in common.
    pub(crate) common: CellSet,
}

impl Found {
    /// Nothing yet.
    pub(crate) fn make(alloc: Global, size: Size, limits: Limits) -> Result<Found, AllocError> {
        Ok(Found {
            limits,
            entries: Vec::new(alloc),
            states: Vec::new(alloc),
            premises: Vec::new(alloc),
            fulls: Held::make(alloc, size, limits.full.min(MOST_FULL))?,
            semis: Held::make(alloc, size, limits.semi.min(MOST_SEMI))?,
            queue: Queue::make(alloc)?,
            edge_full: Vec::new(alloc),
            edge_semi: Vec::new(alloc),
            common: CellSet::none(),
        })
    }

    /// Takes all away, for a report in this region.
    pub(crate) fn clear(&mut self, region: CellSet) {
        self.fulls.clear();
        self.semis.clear();
        self.entries.clear();
        self.states.clear();
        self.premises.clear();
        self.queue.clear();
        self.edge_full.clear();
        self.edge_semi.clear();
        self.common = region;
    }

    /// The entries, in the order in which they were found.
    pub(crate) fn entries(&self) -> &[Entry]
        ensures { result.now ≡ self.now.entries.items }
    {
        &self.entries
    }

    /// The numbers of an entry's premises.
    #[inline(always)]
    pub(crate) fn premises(&self, entry: &Entry) -> &[u32] {
        let end = entry.first.saturating_add(entry.count);
        self.premises.get(entry.first..end).unwrap_or(&[])
    }

    /// The numbers of the entries between the edges.
    pub(crate) fn between_edges(&self, kind: Kind) -> &[u32]
        ensures { result.now ≡ edge_numbers self.now kind }
    {
        match kind {
            Kind::Full => &self.edge_full,
            Kind::Semi => &self.edge_semi,
        }
    }

    /// Whether a pair has a full entry.
    #[inline(always)]
    pub(crate) fn has_full(&self, x: u8, y: u8) -> bool {
        !self.fulls.is_empty(x, y)
    }

    /// Lists the carrier and the number of each semi entry of the same elements that was taken
    /// before this one: the cells that it and all of them have in common.
    pub(crate) fn list_others(
        &self,
        entry: &Entry,
        number: u32,
        others: &mut Vec<(CellSet, u32)>,
    ) -> Result<CellSet, AllocError> {
        others.clear();
        let mut common = entry.carrier;
        for other in self.semis.numbers(entry.x, entry.y).iter().copied() {
            if other != number
                && self.states.get(other as usize) == Some(&State::Taken)
                && let Some(entry) = self.entries.get(other as usize)
            {
                common = common.meet(entry.carrier);
                others.push((entry.carrier, other))?;
            }
        }
        Ok(common)
    }

    /// Lists the elements that lie beside an edge, each with the number of the entry that says so.
    /// Such entries come before all others.
    pub(crate) fn list_beside(
        &self,
        edge: u8,
        beside: &mut Vec<(u8, u32)>,
    ) -> Result<(), AllocError> {
        beside.clear();
        for (number, entry) in self.entries.iter().enumerate() {
            if entry.rule != Rule::Adjacent {
                break;
            }
            if entry.x == edge
                && 1 < entry.y
                && let Ok(number) = u32::try_from(number)
            {
                beside.push((entry.y, number))?;
            }
        }
        Ok(())
    }

    /// Takes the next entry that waits, with its number. `None` if none does.
    pub(crate) fn take(&mut self) -> Option<(u32, Entry)> {
        for _given_up in 0..u32::MAX {
            let number = self.queue.take()?;
            if let Some(state) = self.states.get_mut(number as usize)
                && *state == State::Waiting
            {
                *state = State::Taken;
                return Some((number, *self.entries.get(number as usize)?));
            }
        }
        None
    }

    /// Adds an entry, unless there is a narrower one or too many.
    #[inline(always)]
    pub(crate) fn add(&mut self, entry: Entry, premises: &[u32]) -> Result<(), AllocError> {
        if let Some(narrower) = self.first_inside(&entry) {
            self.shorten(narrower, &entry, premises)?;
        } else if let Ok(number) = u32::try_from(self.entries.len())
            && self.put(&entry, number)
        {
            self.enlist(entry, premises, number)?;
        }
        Ok(())
    }

    // The number of the first entry of the same kind and elements whose carrier lies inside this
    // one's.
    #[inline(always)]
    fn first_inside(&self, entry: &Entry) -> Option<u32> {
        match entry.kind {
            Kind::Full => self.fulls.first_inside(entry),
            Kind::Semi if entry.is_between_edges() => {
                let mut numbers = self.edge_semi.iter().copied();
                numbers.find(|number| {
                    let old = self.entries.get(*number as usize);
                    old.is_some_and(|old| old.carrier.inside(entry.carrier))
                })
            }
            Kind::Semi => self.semis.first_inside(entry),
        }
    }

    // Gives up the entries around this one, and puts it to those of its kind, if there is a place
    // and no full one makes it needless: whether it is put.
    #[inline(always)]
    fn put(&mut self, entry: &Entry, number: u32) -> bool {
        match entry.kind {
            Kind::Full => self.fulls.put(entry, number, &mut self.states),
            Kind::Semi if entry.is_between_edges() => self.keeps_at_edges(entry.carrier),
            Kind::Semi => {
                self.fulls.first_inside(entry).is_none()
                    && self.semis.put(entry, number, &mut self.states)
            }
        }
    }

    // Gives up the semi entries between the edges around one with this carrier: whether that is to
    // be kept.
    fn keeps_at_edges(&mut self, carrier: CellSet) -> bool {
        let (entries, states) = (&self.entries, &mut self.states);
        self.edge_semi.retain(|number| {
            let old = entries.get(*number as usize);
            let is_around = old.is_some_and(|old| carrier.inside(old.carrier));
            if is_around {
                give_up(states, *number);
            }
            !is_around
        });
        let is_kept = self.edge_semi.len() < self.limits.edge_semi || !self.common.inside(carrier);
        if is_kept {
            self.common = self.common.meet(carrier);
        }
        is_kept
    }

    // Puts a new entry behind the others, to wait.
    fn enlist(
        &mut self,
        mut entry: Entry,
        premises: &[u32],
        number: u32,
    ) -> Result<(), AllocError> {
        if entry.is_between_edges() {
            match entry.kind {
                Kind::Semi => self.edge_semi.push(number)?,
                Kind::Full => {
                    let states = &self.states;
                    self.edge_full
                        .retain(|old| states.get(*old as usize) != Some(&State::GivenUp));
                    self.edge_full.push(number)?;
                }
            }
        }
        if self.limits.counts_lines {
            entry.lines = self.lines_by(premises);
        }
        (entry.first, entry.count) = (self.premises.len(), premises.len());
        self.premises.extend_from_slice(premises)?;
        self.queue.put(entry.carrier.count(), number)?;
        self.entries.push(entry)?;
        self.states.push(State::Waiting)?;
        Ok(())
    }

    // The lines of a derivation from these premises.
    fn lines_by(&self, premises: &[u32]) -> u32 {
        let entries = premises
            .iter()
            .filter_map(|number| self.entries.get(*number as usize));
        let lines = entries.fold(1u32, |sum, entry| sum.saturating_add(entry.lines));
        lines.min(MOST_LINES)
    }

    // If lines are counted, and the entry with this number is the same as the other, gives it the
    // other's derivation if that is shorter.
    #[inline(always)]
    fn shorten(&mut self, number: u32, entry: &Entry, premises: &[u32]) -> Result<(), AllocError> {
        let old = self.entries.get(number as usize);
        if self.limits.counts_lines && old.is_some_and(|old| old.carrier == entry.carrier) {
            let lines = self.lines_by(premises);
            if let Some(old) = self.entries.get_mut(number as usize)
                && lines < old.lines
            {
                (old.lines, old.rule) = (lines, entry.rule);
                (old.first, old.count) = (self.premises.len(), premises.len());
                self.premises.extend_from_slice(premises)?;
            }
        }
        Ok(())
    }
}
