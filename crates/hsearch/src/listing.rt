//! The full entries that were taken, listed for each element.

ghost use Rattle.std.specs.Prelude.{◌≡◌, ℕ, ◌<◌, ◌≤◌, [], OnOk, length, map, slice_index_or};
ghost use Rattle.std.specs.List.{Contains};
ghost use Rattle.hsearch.specs.Listed.{IsEnlisted, IsListedAt};

use conn_store::{Entry, Kind};
use std::alloc::{AllocError, Global};

// The room that a list has at first: most grow to some ten numbers, and few make it grow.
const ROOM: usize = 16;

/// Empties the lists, and makes more if they are less than so many.
pub(crate) fn clear_lists(
    alloc: Global,
    lists: &mut Vec<Vec<u32>>,
    count: u32,
) -> Result<(), AllocError>
    ensures count { OnOk result (count ≤ length lists.new.items) }
    ensures empty { OnOk result ((u i : ℕ)
        → ¬ (Contains (slice_index_or (map (λ q. q.items) lists.new.items) u []) i)) }
{
    empty_lists(lists);
    'elements: for _element in lists.len()..count as usize {
        lists.push(Vec::with_capacity(alloc, ROOM)?)?;
    }
    Ok(())
}

// Takes all numbers from the lists.
fn empty_lists(lists: &mut Vec<Vec<u32>>)
    ensures { (u i : ℕ)
        → ¬ (Contains (slice_index_or (map (λ q. q.items) lists.new.items) u []) i) }
{
    'lists: for place in 0..lists.len() {
        lists[place].clear();
    }
}

/// The numbers that are listed for an element.
pub(crate) fn list_of(lists: &[Vec<u32>], element: u8) -> &[u32]
    requires { element < length lists.now }
    ensures { result.now ≡ slice_index_or (map (λ q. q.items) lists.now) element [] }
{
    &lists[element as usize]
}

/// Lists the entry with this number for both of its elements, if it is full.
pub(crate) fn enlist(
    lists: &mut Vec<Vec<u32>>,
    number: u32,
    entry: &Entry,
) -> Result<(), AllocError>
    requires first { entry.now.x < length lists.old.items }
    requires second { entry.now.y < length lists.old.items }
    ensures { OnOk result (IsEnlisted (map (λ q. q.items) lists.old.items) number entry.now
        (map (λ q. q.items) lists.new.items)) }
{
    match entry.kind {
        Kind::Full => {
            list_at(lists, entry.x, number)?;
            list_at(lists, entry.y, number)?;
        }
        Kind::Semi => {}
    }
    Ok(())
}

// Lists the number for the element.
fn list_at(lists: &mut Vec<Vec<u32>>, element: u8, number: u32) -> Result<(), AllocError>
    requires { element < length lists.old.items }
    ensures { OnOk result (IsListedAt (map (λ q. q.items) lists.old.items) element number
        (map (λ q. q.items) lists.new.items)) }
{
    lists[element as usize].push(number)?;
    Ok(())
}
