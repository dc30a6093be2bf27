//! Reports: stores that are closed under the four rules, and the search that makes them.

ghost use Rattle.std.specs.Prelude.{◌≡◌, ◌≤◌, [], IfOk, OnOk, length};
ghost use Rattle.hsearch.specs.Closed.{IsReport};
ghost use Rattle.hsearch.specs.Taken.{IsGrown};

use super::combining::{add_near, combine};
use super::listing::{clear_lists, enlist};
use super::refusals::Memory;
use super::waiting::Waiting;
use conn_store::Store;
use hex_board::Board;
use hex_cells::Colour;
use std::alloc::{AllocError, Global};
use std::marker::Model;

/// A player's entries on a board, closed under the four rules, and the memory of the search that
/// made it.
#[derive(Drop)]
pub struct Report {
    store: Store,
    waiting: Waiting,
    taken: Vec<bool>,
    lists: Vec<Vec<u32>>,
}

impl Model for Report {
    ghost use Rattle.std.specs.Prelude.{◌≡◌, []};
    ghost use Rattle.conn_store.specs.Stores.{StoreData};
    ghost use Rattle.hsearch.specs.Closed.{IsReport};

    ghost Value = { StoreData };

    ghost view = { λ r. r.store };

    ghost invariant = { λ r. IsReport r.store × (r.waiting ≡ []) };
}

/// The report of a player on a board, by H-search. It begins with the pairs that lie side by side,
/// takes each entry once, those with the smallest carriers first, and adds what follows from it and
/// those that were taken before.
///
/// It refuses only if memory runs out.
pub fn connect(alloc: Global, board: &Board, colour: Colour) -> Result<Report, Memory>
    ensures elements { IfOk result
        (λ r. r.elements ≡ record { board = board.now; player = colour }) }
    ensures report { IfOk result IsReport }
{
    let store = Store::make(alloc, board, colour)?;
    let waiting = Waiting::make(alloc)?;
    closed(alloc, store, waiting, Vec::new(alloc), Vec::new(alloc))
}

// The report that begins with a store without entries, in the memory of these marks and lists,
// whatever they hold.
fn closed(
    alloc: Global,
    mut store: Store,
    mut waiting: Waiting,
    mut taken: Vec<bool>,
    mut lists: Vec<Vec<u32>>,
) -> Result<Report, Memory>
    requires store { store.entries ≡ [] }
    requires waiting { waiting ≡ [] }
    ensures elements { IfOk result (λ r. r.elements ≡ store.elements) }
    ensures report { IfOk result IsReport }
{
    add_near(&mut store);
    waiting.put_from(store.entries(), 0)?;
    taken.clear();
    clear_lists(alloc, &mut lists, store.elements().count())?;
    'entries: while let Some(number) = waiting.take() {
        let count = store.entries().len();
        combine(&mut store, number, &taken, &lists);
        let entries = store.entries();
        waiting.put_from(entries, count)?;
        grow(&mut taken, entries.len())?;
        taken[number as usize] = true;
        let entry = entries[number as usize];
        enlist(&mut lists, number, &entry)?;
    }
    Ok(Report {
        store,
        waiting,
        taken,
        lists,
    })
}

// Makes the marks so many; those that come are false.
fn grow(marks: &mut Vec<bool>, count: usize) -> Result<(), AllocError>
    requires { length marks.old.items ≤ count }
    ensures length { OnOk result (length marks.new.items ≡ count) }
    ensures same { OnOk result (IsGrown marks.old.items marks.new.items) }
{
    'marks: for _place in marks.len()..count {
        marks.push(false)?;
    }
    Ok(())
}

impl Report {
    /// The same as [`connect`], in the memory of this report, which is gone then. It takes more
    /// only if this search needs more than each before it in this memory.
    ///
    /// It refuses only if memory runs out.
    pub fn again(self, alloc: Global, board: &Board, colour: Colour) -> Result<Report, Memory>
        ensures elements { IfOk result
            (λ r. r.elements ≡ record { board = board.now; player = colour }) }
        ensures report { IfOk result IsReport }
    {
        let store = self.store.again(board, colour)?;
        closed(alloc, store, self.waiting, self.taken, self.lists)
    }

    /// Does nothing: that it is a report is known after the call.
    #[inline]
    pub fn keeps(&self)
        ensures report { IsReport self.now }
    {
        let _ = &self.store;
    }

    /// The store of the report: sound and closed.
    pub fn store(&self) -> &Store
        ensures value { result.now ≡ self.now }
        ensures report { IsReport self.now }
    {
        &self.store
    }
}
