//! The four rules: the entries that follow from those of a store.

ghost use Rattle.std.specs.Prelude.{◌≡◌, ◌↔◌, ℕ, ◌<◌, ◌∷◌, [], IfNone, IfSome, IsTrue, Some, false};
ghost use Rattle.std.specs.Prelude.{length};
ghost use Rattle.hex_board.specs.Elements.{element_count};
ghost use Rattle.hex_board.specs.Places.{is_near};
ghost use Rattle.std.specs.List.{slice_get};
ghost use Rattle.conn_store.specs.Entries.{IsBetween};
ghost use Rattle.conn_store.specs.Over.{AreDisjoint, CanAnd, IsFullOf, IsOver};
ghost use Rattle.conn_store.specs.Rules.{AreWays, IsEntry, OrRule, adjacent_entry};
ghost use Rattle.conn_store.specs.Stores.{CanOr, GivesAnd, MayBeAdded};
ghost use Rattle.conn_store.specs.declared.entries.Entry.{Entry};

use super::Store;
use super::entries::{Cause, Entry, Kind};
use hex_cells::{Cell, CellSet};

/// A full entry as the first of two that share a middle, with what the rules of AND ask of it.
#[derive(Clone, Copy, Debug, PartialEq, Eq)]
pub struct EntryOver {
    pub number: u32,
    /// The middle is one of the entry's elements, the end is the other.
    pub end: u8,
    pub middle: u8,
    pub carrier: CellSet,
    /// The cells of the end.
    pub cells: CellSet,
    /// The empty cell that the middle is; `None` for a group.
    pub cell: Option<Cell>,
}

// The other element of an entry; `None` exactly if this is none of its two.
fn other_end(entry: &Entry, middle: u8) -> Option<u8>
    requires { entry.now.x < entry.now.y }
    ensures some { IfSome result (IsBetween entry.now middle) }
    ensures none { IfNone result ((y : ℕ) → ¬ (IsBetween entry.now middle y)) }
{
    if entry.x == middle {
        Some(entry.y)
    } else if entry.y == middle {
        Some(entry.x)
    } else {
        None
    }
}

// The entry of an unordered pair.
fn entry_of(kind: Kind, x: u8, y: u8, carrier: CellSet, cause: Cause) -> Entry
    ensures { IsEntry result kind x y carrier cause }
{
    Entry {
        kind,
        x: x.min(y),
        y: x.max(y),
        carrier,
        cause,
    }
}

impl Store {
    /// The entry of two elements that lie side by side; `None` exactly if they do not.
    pub fn by_adjacent(&self, x: u8, y: u8) -> Option<Entry>
        requires order { x < y }
        requires elements { y < element_count self.now.elements }
        ensures next { IfSome result (MayBeAdded self.now) }
        ensures entry { IfSome result (λ a. a ≡ adjacent_entry x y) }
        ensures none { IfNone result (is_near self.now.elements x y ≡ false) }
    {
        if self.elements().near(x, y) {
            Some(Entry {
                kind: Kind::Full,
                x,
                y,
                carrier: CellSet::none(),
                cause: Cause::Adjacent,
            })
        } else {
            None
        }
    }

    /// A full entry over one of its elements, the middle.
    pub fn over(&self, number: u32, end: u8, middle: u8) -> EntryOver
        requires number { number < length self.now.entries }
        requires entry { (a : Entry) → slice_get self.now.entries number ≡ Some a
            → IsFullOf a end middle }
        ensures over { IsOver self.now result }
        ensures names { (result.number ≡ number) × (result.middle ≡ middle) }
    {
        let entry = self.entries()[number as usize];
        EntryOver {
            number,
            end,
            middle,
            carrier: entry.carrier,
            cells: self.elements.cells(end),
            cell: self.elements.cell(middle),
        }
    }

    /// The entry that follows from `first` and entry `other` by a rule of AND over their middle, a
    /// group or an empty cell; `None` exactly if neither applies.
    pub fn by_and(&self, first: &EntryOver, other: u32) -> Option<Entry>
        requires first { IsOver self.now first.now }
        requires other { other < length self.now.entries }
        ensures next { IfSome result (MayBeAdded self.now) }
        ensures gives { IfSome result (GivesAnd self.now first.now.number other) }
        ensures none { IfNone result (¬ (CanAnd self.now first.now.number other first.now.middle)) }
    {
        let second = self.entries()[other as usize];
        let y = other_end(&second, first.middle)?;
        if !self.is_apart(first, &second, y) {
            return None;
        }
        let both = first.carrier.union(second.carrier);
        match first.cell {
            None => {
                let cause = Cause::AndGroup(first.number, other);
                Some(entry_of(Kind::Full, first.end, y, both, cause))
            }
            Some(cell) => {
                let cause = Cause::AndEmpty(first.number, other);
                Some(entry_of(Kind::Semi, first.end, y, both.with(cell), cause))
            }
        }
    }

    // Whether two entries that share a middle are what the rules of AND ask: the second, which ends
    // at `y`, is full too, the ends differ, and neither carrier has a cell of the other or of the
    // other's end.
    fn is_apart(&self, first: &EntryOver, second: &Entry, y: u8) -> bool
        requires first { IsOver self.now first.now }
        requires end { y < element_count self.now.elements }
        ensures { IsTrue result ↔ AreDisjoint self.now.elements first.now second.now y }
    {
        if second.kind == Kind::Semi || y == first.end {
            return false;
        }
        if first.carrier.meets(second.carrier) || first.cells.meets(second.carrier) {
            return false;
        }
        !self.elements.cells(y).meets(first.carrier)
    }

    /// The entry that follows from entries `i` and `j` by the rule of OR; `None` exactly if it
    /// does not apply.
    pub fn by_or_two(&self, i: u32, j: u32) -> Option<Entry>
        requires first { i < length self.now.entries }
        requires second { j < length self.now.entries }
        ensures next { IfSome result (MayBeAdded self.now) }
        ensures cause { IfSome result (λ a. a.cause ≡ Cause.Or (i ∷ j ∷ 0 ∷ []) 2) }
        ensures none { IfNone result (¬ (CanOr self.now (i ∷ j ∷ []))) }
    {
        let a = self.entries()[i as usize];
        let b = self.entries()[j as usize];
        if !are_two_ways(&a, &b) {
            return None;
        }
        let carrier = a.carrier.union(b.carrier);
        Some(entry_of(Kind::Full, a.x, a.y, carrier, Cause::Or([i, j, 0], 2)))
    }

    /// The entry that follows from entries `i`, `j` and `k` by the rule of OR; `None` exactly
    /// if it does not apply.
    pub fn by_or_three(&self, i: u32, j: u32, k: u32) -> Option<Entry>
        requires first { i < length self.now.entries }
        requires second { j < length self.now.entries }
        requires third { k < length self.now.entries }
        ensures next { IfSome result (MayBeAdded self.now) }
        ensures cause { IfSome result (λ a. a.cause ≡ Cause.Or (i ∷ j ∷ k ∷ []) 3) }
        ensures none { IfNone result (¬ (CanOr self.now (i ∷ j ∷ k ∷ []))) }
    {
        let a = self.entries()[i as usize];
        let b = self.entries()[j as usize];
        let c = self.entries()[k as usize];
        if !are_three_ways(&a, &b, &c) {
            return None;
        }
        let carrier = a.carrier.union(b.carrier.union(c.carrier));
        Some(entry_of(Kind::Full, a.x, a.y, carrier, Cause::Or([i, j, k], 3)))
    }
}

// Whether both are semi entries of one pair.
fn are_ways(a: &Entry, b: &Entry) -> bool
    ensures { IsTrue result ↔ AreWays a.now b.now }
{
    a.kind == Kind::Semi && b.kind == Kind::Semi && a.x == b.x && a.y == b.y
}

// Whether the rule of OR applies to two entries.
fn are_two_ways(a: &Entry, b: &Entry) -> bool
    requires { a.now.x < a.now.y }
    ensures { IsTrue result ↔ OrRule (a.now ∷ b.now ∷ []) a.now.x a.now.y }
{
    are_ways(a, b) && !a.carrier.meets(b.carrier)
}

// Whether the rule of OR applies to three entries.
fn are_three_ways(a: &Entry, b: &Entry, c: &Entry) -> bool
    requires { a.now.x < a.now.y }
    ensures { IsTrue result ↔ OrRule (a.now ∷ b.now ∷ c.now ∷ []) a.now.x a.now.y }
{
    are_ways(a, b) && are_ways(a, c) && !a.carrier.meets(b.carrier.meet(c.carrier))
}
