//! Batches: walks that are made one after the other, and whose boards are judged side by side.

ghost use Rattle.std.specs.Prelude.{◌≡◌, ◌+◌, ◌≤◌, length};

use super::judges::{Case, Finding, Job, Judge};
use super::nodes::{AWAITED, LookNode, NOWHERE, State};
use super::pool::Pool;
use super::refusals::Memory;
use super::searches::{End, Fresh, Look};
use hex_cells::{Colour, MOST_CELLS};
use std::thread::{Threads, for_each_mut};

impl Look {
    /// Makes at most so many walks, and judges where they end.
    pub(super) fn batch<R: Threads + Sync>(
        &mut self,
        rt: &R,
        colour: Colour,
        most: usize,
    ) -> Result<(), Memory>
        ensures few { length self.new.nodes.items ≤ length self.old.nodes.items + most }
        ensures keeps { length self.old.nodes.items ≤ length self.new.nodes.items }
    {
        let count = self.go_down(colour, most);
        judge_all(rt, &mut self.judges, count, &self.pool);
        'results: for number in 0..count.min(most) {
            self.take(number)?;
        }
        Ok(())
    }

    // Makes at most so many walks, and makes a case of each that ends at no node that is known:
    // how many.
    fn go_down(&mut self, colour: Colour, most: usize) -> usize
        ensures { length self.new.nodes.items ≡ length self.old.nodes.items }
    {
        let mut count = 0usize;
        'walks: for _walk in 0..most {
            match self.down(colour) {
                End::Blocked => break,
                End::Known(place) => self.come_back(place),
                End::Fresh(fresh) => {
                    self.give(count, &fresh);
                    count = count.saturating_add(1);
                }
            }
        }
        count
    }

    // A walk that ended at a node that is known goes up.
    fn come_back(&mut self, place: u32)
        ensures { length self.new.nodes.items ≡ length self.old.nodes.items }
    {
        if let Some(node) = self.nodes.get(place as usize) {
            let above = node.above;
            self.leave(above);
        }
        self.up(place);
    }

    // Gives the board after a kid without a node to the case with this number.
    fn give(&mut self, number: usize, fresh: &Fresh)
        ensures { length self.new.nodes.items ≡ length self.old.nodes.items }
    {
        let Some(node) = self.nodes.get(fresh.above as usize) else {
            return;
        };
        let job = Job {
            above: fresh.above,
            number: fresh.number,
            mover: fresh.mover,
            cell: fresh.cell,
            board: node.board,
            slot: self.pool.slot_of(fresh.above, node.slot),
        };
        if let Some(case) = case_of(&mut self.judges, number) {
            case.give(job);
        }
        if let Some(kid) = self.kids.get_mut(fresh.number as usize) {
            kid.node = AWAITED;
        }
        self.leave(fresh.above);
    }

    // Says of a node and of all above it that a walk went on there.
    fn leave(&mut self, from: u32)
        ensures { length self.new.nodes.items ≡ length self.old.nodes.items }
    {
        let mut place = from;
        'nodes: for _node in 0..=MOST_CELLS {
            let Some(node) = self.nodes.get_mut(place as usize) else {
                break;
            };
            node.away = node.away.saturating_add(1);
            place = node.above;
        }
    }

    // Takes what was found in the case with this number: a new node, whose value goes up.
    fn take(&mut self, number: usize) -> Result<(), Memory>
        ensures few { length self.new.nodes.items ≤ length self.old.nodes.items + 1 }
        ensures keeps { length self.old.nodes.items ≤ length self.new.nodes.items }
    {
        let Some(case) = case_of(&mut self.judges, number) else {
            return Ok(());
        };
        let Some((job, finding)) = case.take()? else {
            return Ok(());
        };
        if let Some(before) = case.before() {
            let slot = self.pool.keep(before, job.above);
            if let Some(above) = self.nodes.get_mut(job.above as usize) {
                above.slot = slot;
            }
        }
        let place = number_of(self.nodes.len());
        let node = self.node_of(number, &finding, job.above, place)?;
        self.nodes.push(node)?;
        if let Some(kid) = self.kids.get_mut(job.number as usize) {
            kid.node = place;
        }
        self.up(place);
        Ok(())
    }

    /// The node that was found in the case with this number, below another one. It gets this place.
    pub(super) fn node_of(
        &mut self,
        number: usize,
        finding: &Finding,
        above: u32,
        place: u32,
    ) -> Result<LookNode, Memory>
        ensures { self.new.nodes ≡ self.old.nodes }
    {
        match finding.state {
            State::Won => Ok(LookNode::decided(&finding.board, State::Won, above)),
            State::Lost => Ok(LookNode::decided(&finding.board, State::Lost, above)),
            State::Open => self.open_node(number, finding, above, place),
        }
    }

    // The same of an open one: its links are kept, and its kids.
    fn open_node(
        &mut self,
        number: usize,
        finding: &Finding,
        above: u32,
        place: u32,
    ) -> Result<LookNode, Memory>
        ensures { self.new.nodes ≡ self.old.nodes }
    {
        let first = number_of(self.kids.len());
        let mut slot = usize::MAX;
        if let Some(case) = case_of(&mut self.judges, number) {
            if let Some(after) = case.after() {
                slot = self.pool.keep(after, place);
            }
            self.kids.extend_from_slice(case.kids())?;
        }
        let kids = first..number_of(self.kids.len());
        Ok(LookNode::open(&finding.board, finding.value, kids, slot, above))
    }
}

// The case with this number. Those that follow one another are other judges'.
fn case_of(judges: &mut [Judge], number: usize) -> Option<&mut Case> {
    let count = judges.len().max(1);
    judges.get_mut(number % count)?.case(number / count)
}

// Has the first so many cases judged, by each judge in a thread of its own. Each writes what it has
// alone, and reads what is kept: so it finds the same however the threads run.
fn judge_all<R: Threads + Sync>(rt: &R, judges: &mut [Judge], count: usize, pool: &Pool) {
    let threads = count.min(judges.len());
    let each = count.div_ceil(threads.max(1));
    let (busy, _idle) = judges.split_at_mut(threads);
    for_each_mut(
        rt,
        busy,
        threads.max(1),
        &|_number, judge| { judge.work(each, pool) },
    );
}

/// A length as a place.
pub(super) fn number_of(length: usize) -> u32 {
    length.min(NOWHERE as usize) as u32
}
