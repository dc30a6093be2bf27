//! The shared tree.

ghost use Rattle.std.specs.Prelude.{◌≡◌, ◌<◌, IfOk, length, []};
ghost use Rattle.tree_words.specs.Words.{end_of};
ghost use Rattle.std.specs.Mem.Slots.{slots_items, slots_len, IsFull};
ghost use Rattle.arena_rule.specs.Views.{opening_view, HasEnded};
ghost use Rattle.arena_rule.specs.Closed.{HasAllWalks};
ghost use Rattle.arena_rule.specs.IsView.{IsView};
ghost use Rattle.tree_rule.specs.Events.{BeginsInRule};
ghost use Rattle.tree_rule.specs.Seats.{IsOf, IsTableFor};
ghost use Rattle.tree_rule.specs.Ends.{AreShown, AreRecords, AreCopied};
ghost use Rattle.tree_rule.specs.Ends.{IsSameBehind, EndsWith};

use super::rule::ArenaRule;
use super::seats::TreeSeat;
use arena_rule::Account;
use atomic_table::{Seat, Table};
use std::alloc::Global;
use std::marker::Model;
use tree_words::layout::{NEXT_AT, RECORDS_AT};
use tree_words::{Closed, Memory, Shape, make_opening};

// The table of a tree, and the table when no seat shares it any more.
type OpenTable = Table<u8, Account, Shape, ArenaRule, Global>;

type ClosedTable = atomic_table::Closed<u8, Global>;

/// A tree that seats share: the words of a search, and the shape that it is for. Contracts see its
/// table and its shape.
#[derive(Drop)]
pub struct Tree {
    pub(crate) table: OpenTable,
    shape: Shape,
    // The room for the closed tree's words: the opening words still stand there.
    room: Vec<u64>,
}

impl Model for Tree {
    ghost use Rattle.std.specs.Prelude.{◌≡◌};
    ghost use Rattle.tree_rule.specs.Seats.{TreeData, IsTableFor};

    ghost Value = { TreeData };

    ghost view = { λ t. record { table = t.table.shared.table_id; shape = t.shape } };

    ghost invariant = { λ t. (t.table.shared.key ≡ t.shape)
        × IsTableFor t.table.shared.key t.table.shared.table_id t.room.items };
}

// Copies the words below NEXT, if the others are the same already.
fn copy_claimed(table: &ClosedTable, room: &mut [u64])
    requires full { IsFull table.now.words }
    requires long { slots_len table.now.words ≡ length room.old }
    requires some { NEXT_AT < length room.old }
    requires same { IsSameBehind (slots_items table.now.words) room.old }
    ensures { room.new ≡ slots_items table.now.words }
{
    let end = table.word(NEXT_AT).min(room.len() as u64) as usize;
    for i in 0..end {
        room[i] = table.word(i);
    }
}

// The words at the end, in the room where the opening words stand.
fn end(table: OpenTable, seat: Seat<u8, Account>, mut room: Vec<u64>) -> Vec<u64>
    requires own { seat.table_id ≡ table.shared.table_id }
    requires stands { IsTableFor table.shared.key table.shared.table_id room.items }
    requires owed { seat.me.0.owed ≡ [] }
    requires all { seat.me.0.view.width ≡ table.shared.key.knobs.workers }
    requires ended { HasEnded seat.me.0.view }
    ensures { EndsWith table.shared.key seat.id seat.me.0.view result.items }
{
    let closed = table.close_with(seat);
    copy_claimed(&closed, &mut room);
    closed.free();
    room
}

impl Tree {
    /// The tree of the shape with its opening words, and a seat that stands for all its workers. It
    /// takes all the memory that the tree needs up to its end. The arena rule holds of them.
    pub fn make(alloc: Global, shape: &Shape) -> Result<(Tree, TreeSeat), Memory>
        ensures shape { IfOk result (λ t. t.0.shape ≡ shape.now) }
        ensures own { IfOk result (λ t. IsOf t.0 t.1) }
        ensures view { IfOk result (λ t. t.1.view ≡ opening_view shape.now) }
        ensures owed { IfOk result (λ t. t.1.owed ≡ []) }
        ensures order { IfOk result (λ t. IsView t.1.view) }
        ensures rule { IfOk result (λ t. BeginsInRule t.0.shape t.1.view) }
    {
        shape.keeps();
        let room = make_opening(alloc, shape)?;
        let Ok((table, seat)) = Table::of_words(alloc, room.as_slice(), shape) else {
            return Err(Memory);
        };
        let tree = Tree {
            table,
            shape: *shape,
            room,
        };
        Ok((tree, TreeSeat { seat }))
    }

    // A word that is seldom written: the record of a playout in the middle.
    #[inline(always)]
    pub(crate) fn quiet_word(&self) -> u32
        ensures { result < end_of self.now.shape }
    {
        let playouts = self.shape.knobs().playouts;
        RECORDS_AT as u32 + playouts / 2
    }

    /// The closed tree, if the seat stands for all workers and they have ended. It takes no
    /// memory. Its words show what the seat knew, and its records are those of the seat's walks,
    /// which are the walks of all playouts.
    pub fn close(self, seat: TreeSeat) -> Closed
        requires own { IsOf self seat }
        requires all { seat.view.width ≡ self.shape.knobs.workers }
        requires ended { HasEnded seat.view }
        requires owed { seat.owed ≡ [] }
        ensures shape { result.shape ≡ self.shape }
        ensures known { AreShown result.words seat.view.known }
        ensures walks { HasAllWalks self.shape seat.view }
        ensures records { AreRecords self.shape result.words seat.view }
        ensures whole { AreCopied result.words seat.view }
    {
        let Tree { table, shape, room } = self;
        let TreeSeat { seat } = seat;
        Closed::of(shape, end(table, seat, room))
    }
}
