//! What follows from one entry and those that were taken.

ghost use Rattle.std.specs.Prelude.{◌≡◌, ℕ, ◌+◌, ◌<◌, ◌≤◌, ◌∷◌, [], ◌↔◌, IsTrue, length};
ghost use Rattle.std.specs.Prelude.{map, slice_index};
ghost use Rattle.hex_board.specs.Elements.{element_count};
ghost use Rattle.hsearch.specs.Closed.{HoldsEdge};
ghost use Rattle.std.specs.List.{Contains};
ghost use Rattle.conn_store.specs.Over.{IsOver};
ghost use Rattle.conn_store.specs.declared.entries.TheConstants.{MOST_SEMI};
ghost use Rattle.conn_store.specs.Stores.{CanOr, IsDominated, IsPairFull, MayBeAdded, after_put};
ghost use Rattle.conn_store.specs.declared.entries.Put.{Put};
ghost use Rattle.hsearch.specs.Listed.{AreListed, IsFullAt};
ghost use Rattle.hsearch.specs.Taken.{AreBare, AreNearBelow, AreThirdsSettled, AreThreesSettled};
ghost use Rattle.hsearch.specs.Taken.{AreTwosSettled, Extends, IsAndSettledOver, IsCombined};
ghost use Rattle.hsearch.specs.Taken.{IsMarked, IsOfPair, IsOrSettled};

use super::listing::list_of;
use conn_store::{Entry, EntryOver, Held, Kind, Put, Store};
use hex_board::Elements;

/// Adds the entries of the pairs that lie side by side.
pub(crate) fn add_near(store: &mut Store)
    requires { store.old.entries ≡ [] }
    ensures elements { store.new.elements ≡ store.old.elements }
    ensures near { AreNearBelow store.new (element_count store.new.elements) }
{
    let count = store.elements().count();
    'seconds: for y in 0..count {
        add_near_to(store, y as u8);
    }
}

// Adds the entries of an element and those before it that lie beside it.
fn add_near_to(store: &mut Store, y: u8)
    requires element { y < element_count store.old.elements }
    requires bare { AreBare store.old }
    requires before { AreNearBelow store.old y }
    ensures extends { Extends store.old store.new }
    ensures bare { AreBare store.new }
    ensures near { AreNearBelow store.new (y + 1) }
{
    'firsts: for x in 0..y {
        match store.by_adjacent(x, y) {
            Some(entry) => {
                let _ = store.add(entry);
            }
            None => {}
        }
    }
}

/// Adds what follows from entry `number` and those that were taken. For each element there is a
/// list of the full ones among these.
pub(crate) fn combine(store: &mut Store, number: u32, taken: &[bool], lists: &[Vec<u32>])
    requires number { number < length store.old.entries }
    requires lists { AreListed store.old taken.now (map (λ q. q.items) lists.now) }
    ensures extends { Extends store.old store.new }
    ensures combined { IsCombined store.new (length store.old.entries) taken.now number }
{
    let entry = store.entries()[number as usize];
    let (x, y) = (entry.x, entry.y);
    match entry.kind {
        Kind::Full => {
            join_over(store, number, y, x, list_of(lists, x));
            join_over(store, number, x, y, list_of(lists, y));
        }
        Kind::Semi => choose(store, number, x, y, taken),
    }
}

// Whether an element holds an edge.
fn holds_edge(elements: &Elements, u: u8) -> bool
    ensures { IsTrue result ↔ HoldsEdge elements.now u }
{
    u == elements.edge(false) || u == elements.edge(true)
}

// Adds what follows by AND from entry `number`, a full one of the end and the middle, and those of
// a list, over the middle. An element that holds an edge is no middle.
fn join_over(store: &mut Store, number: u32, end: u8, middle: u8, list: &[u32])
    requires number { number < length store.old.entries }
    requires entry { IsFullAt store.old number end middle }
    requires list { (i : ℕ) → Contains list.now i → i < length store.old.entries }
    ensures extends { Extends store.old store.new }
    ensures joined { (i : ℕ) → Contains list.now i
        → IsAndSettledOver store.new number i middle }
{
    if holds_edge(store.elements(), middle) {
        return;
    }
    let first = store.over(number, end, middle);
    'others: for place in 0..list.len() {
        join(store, &first, list[place]);
    }
}

// Whether the entry was taken.
fn is_marked(taken: &[bool], number: u32) -> bool
    ensures { IsTrue result ↔ IsMarked taken.now number }
{
    match taken.get(number as usize) {
        Some(mark) => *mark,
        None => false,
    }
}

// Adds what follows by AND from an entry over its middle and another.
fn join(store: &mut Store, first: &EntryOver, other: u32)
    requires first { IsOver store.old first.now }
    requires other { other < length store.old.entries }
    ensures extends { Extends store.old store.new }
    ensures joined { IsAndSettledOver store.new first.now.number other first.now.middle }
{
    if let Some(entry) = store.by_and(first, other) {
        let _ = put(store, entry);
    }
}

// Adds the entry, as [`Store::add`] does. That its pair has its full number is told first, if it is
// so, since it costs less to see than that another entry dominates the new one.
fn put(store: &mut Store, entry: Entry) -> Put
    requires { MayBeAdded store.old entry }
    ensures dominated { result ≡ Put.Dominated → IsDominated store.old entry }
    ensures full { result ≡ Put.PairFull → IsPairFull store.old entry.kind entry.x entry.y }
    ensures after { store.new ≡ after_put store.old entry result }
{
    let held = store.held(entry.x, entry.y, entry.kind);
    if held.count == entry.kind.most() {
        return Put::PairFull;
    }
    store.add(entry)
}

// Adds what follows by OR from entry `number`, a semi entry of the elements `x` and `y`, and
// others of theirs that were taken.
fn choose(store: &mut Store, number: u32, x: u8, y: u8, taken: &[bool])
    requires number { number < length store.old.entries }
    requires order { x < y }
    requires elements { y < element_count store.old.elements }
    requires pair { IsOfPair store.old number x y }
    ensures extends { Extends store.old store.new }
    ensures twos { AreTwosSettled store.new (length store.old.entries) taken.now number }
    ensures threes { AreThreesSettled store.new (length store.old.entries) taken.now number }
{
    let held = store.held(x, y, Kind::Semi);
    'seconds: for place in 0..held.count as usize {
        if is_marked(taken, held.at[place]) {
            choose_at(store, number, &held, place, taken);
        }
    }
}

// Adds what follows by OR from entry `number` and the one at this place, and from these and one at
// a place before it that was taken.
fn choose_at(store: &mut Store, number: u32, held: &Held, place: usize, taken: &[bool])
    requires number { number < length store.old.entries }
    requires place { place < held.now.count }
    requires count { held.now.count ≤ MOST_SEMI }
    requires held { (p : ℕ) → p < held.now.count
        → slice_index held.now.at p < length store.old.entries }
    ensures extends { Extends store.old store.new }
    ensures two { IsOrSettled store.new (number ∷ slice_index held.now.at place ∷ []) }
    ensures threes { AreThirdsSettled store.new number held.now.at place taken.now }
{
    if choose_two(store, number, held.at[place]) {
        return;
    }
    'thirds: for other in 0..place {
        if is_marked(taken, held.at[other]) {
            choose_three(store, number, held.at[place], held.at[other]);
        }
    }
}

// Adds what follows by OR from two entries; whether the rule applies to them. Then a third way adds
// nothing: the carrier is larger.
fn choose_two(store: &mut Store, i: u32, j: u32) -> bool
    requires first { i < length store.old.entries }
    requires second { j < length store.old.entries }
    ensures extends { Extends store.old store.new }
    ensures chosen { IsOrSettled store.new (i ∷ j ∷ []) }
    ensures applies { IsTrue result → CanOr store.old (i ∷ j ∷ []) }
{
    match store.by_or_two(i, j) {
        Some(entry) => {
            let _ = put(store, entry);
            true
        }
        None => false,
    }
}

// Adds what follows by OR from three entries.
fn choose_three(store: &mut Store, i: u32, j: u32, k: u32)
    requires first { i < length store.old.entries }
    requires second { j < length store.old.entries }
    requires third { k < length store.old.entries }
    ensures extends { Extends store.old store.new }
    ensures chosen { IsOrSettled store.new (i ∷ j ∷ k ∷ []) }
{
    if let Some(entry) = store.by_or_three(i, j, k) {
        let _ = put(store, entry);
    }
}
