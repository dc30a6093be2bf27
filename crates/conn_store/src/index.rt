//! The index of a store: which entries a pair has of a kind.

ghost use Rattle.std.specs.Prelude.{◌≡◌, ℕ, ◌+◌, ◌<◌, ◌≤◌, ◌↔◌, IsTrue, length, slice_index};
ghost use Rattle.std.specs.Prelude.{[], OnOk, replicate, slice_set};
ghost use Rattle.conn_store.specs.Stores.{held_of};
ghost use Rattle.conn_store.specs.declared.entries.TheConstants.{MOST_SEMI};
ghost use Rattle.conn_store.specs.Index.{AnyInside, number_of_pair, pairs_among};

use super::entries::{Entry, Held, MOST_SEMI};
use hex_board::MOST_ELEMENTS;
use hex_cells::CellSet;
use std::alloc::AllocError;

/// How many pairs so many elements make.
pub(crate) fn pair_count(elements: u32) -> usize
    requires { elements ≤ MOST_ELEMENTS }
    ensures value { result ≡ pairs_among elements }
    ensures range { result ≤ 7503 }
{
    if elements == 0 {
        return 0;
    }
    let elements = elements as usize;
    elements * (elements - 1) / 2
}

/// The number of the pair of two elements: the pairs of lesser elements come before.
pub(crate) fn pair_number(x: u8, y: u8) -> usize
    requires { x < y }
    ensures { result ≡ number_of_pair x y }
{
    let y = usize::from(y);
    y * (y - 1) / 2 + usize::from(x)
}

/// Makes it the table of so many pairs, of which none has entries.
pub(crate) fn clear_table(table: &mut Vec<Held>, pairs: usize) -> Result<(), AllocError>
    ensures { OnOk result (table.new.items ≡ replicate pairs (held_of [])) }
{
    let none = Held {
        count: 0,
        at: [0; MOST_SEMI],
    };
    // What stays is filled at once, which is faster than to push it anew.
    table.truncate(pairs);
    table.fill(none);
    table.resize(pairs, none)?;
    Ok(())
}

/// Writes one number more at the end.
pub(crate) fn push_number(held: &mut Held, number: u32)
    requires { held.old.count < MOST_SEMI }
    ensures { held.new ≡ record {
      count = held.old.count + 1;
      at = slice_set held.old.at held.old.count number;
    } }
{
    held.at[held.count as usize] = number;
    held.count += 1;
}

/// Whether one of the entries with these numbers has its carrier inside the set.
pub(crate) fn has_inside(entries: &[Entry], held: &Held, carrier: CellSet) -> bool
    requires count { held.now.count ≤ MOST_SEMI }
    requires numbers { (j : ℕ) → j < held.now.count
        → slice_index held.now.at j < length entries.now }
    ensures { IsTrue result ↔ AnyInside entries.now held.now carrier }
{
    for j in 0..held.count as usize {
        if entries[held.at[j] as usize].carrier.inside(carrier) {
            return true;
        }
    }
    false
}
