//! The seats of a shared tree.

ghost use Rattle.std.specs.Prelude.{◌≡◌, ◌≢◌, [], ◌∷◌};
ghost use Rattle.tree_words.specs.Told.{AreAmong};
ghost use Rattle.tree_words.specs.declared.steps.Op.TheVariants.{Add, Done};
ghost use Rattle.arena_rule.specs.Views.{spent_view};
ghost use Rattle.arena_rule.specs.Fits.{FitsStep, CanSplit, CanJoin};
ghost use Rattle.arena_rule.specs.Afters.{after, kept_part, given_part, joined};
ghost use Rattle.arena_rule.specs.Answers.{MayAnswer};
ghost use Rattle.arena_rule.specs.IsView.{IsView};
ghost use Rattle.arena_rule.specs.Owing.{debtless, CanOwe, CanGive, debts_but};
ghost use Rattle.tree_rule.specs.Events.{IsMadeInRule, IsOwedInRule, IsGivenInRule};
ghost use Rattle.tree_rule.specs.Events.{SplitKeepsRule, JoinKeepsRule};
ghost use Rattle.tree_rule.specs.Seats.{IsSeatOf, IsOf, debtor_of};
ghost use Rattle.tree_rule.specs.Visits.{AnswersOwnVisits};

use super::plays::{Joins, Part, Spent, Splits};
use super::rule::SharedWords;
use super::steps::{give, owe, step};
use super::trees::Tree;
use arena_rule::Account;
use atomic_table::Seat;
use std::marker::{Brand, Model};
use tree_words::Op;

/// A seat of a shared tree: it stands for one or more workers, and steps on the tree's words.
/// Contracts see its tree's table and its view, which is in order.
#[derive(Drop)]
pub struct TreeSeat {
    pub(crate) seat: Seat<u8, Account>,
}

impl Model for TreeSeat {
    ghost use Rattle.tree_rule.specs.Seats.{SeatData, IsSeatOf};

    ghost Value = { SeatData };

    ghost view = { λ s. record {
      table = s.seat.table_id;
      view = s.seat.me.0.view;
      owed = s.seat.me.0.owed;
    } };

    ghost invariant = { λ s. IsSeatOf s.seat.table_id s.seat };
}

// Splits off a part that the caller picks.
fn cut<B: Part>(shared: &SharedWords, seat: &mut Seat<u8, Account>, part: u32) -> Seat<u8, Account>
    requires picked { part ≡ B.part }
    requires own { IsSeatOf shared.now.table_id seat.old }
    requires can { CanSplit seat.old.me.0.view part }
    requires owed { seat.old.me.0.owed ≡ [] }
    ensures own { IsSeatOf shared.now.table_id seat.new × IsSeatOf shared.now.table_id result }
    ensures kept { seat.new.me.0 ≡ debtless (kept_part seat.old.me.0.view part) }
    ensures given { result.me.0 ≡ debtless (given_part seat.old.me.0.view part) }
{
    shared.split_seat::<Splits<B>>(seat)
}

// Joins the other seat, whose spent view the caller picks.
fn merge<B: Spent>(shared: &SharedWords, seat: &mut Seat<u8, Account>, other: Seat<u8, Account>)
    requires picked { B.spent ≡ spent_view seat.old.me.0.view.shape }
    requires own { IsSeatOf shared.now.table_id seat.old × IsSeatOf shared.now.table_id other }
    requires shape { other.me.0.view.shape ≡ seat.old.me.0.view.shape }
    requires can { CanJoin seat.old.me.0.view other.me.0.view }
    requires owed { (seat.old.me.0.owed ≡ []) × (other.me.0.owed ≡ []) }
    ensures own { IsSeatOf shared.now.table_id seat.new }
    ensures both { seat.new.me.0 ≡ debtless (joined seat.old.me.0.view other.me.0.view) }
{
    shared.join_seat::<Joins<B>>(seat, other);
}

impl TreeSeat {
    /// Splits off a seat for `part` of the workers: the seat keeps the others, and both know what
    /// it knew. The seat is of this tree and has drawn nothing, and both parts have a worker. The
    /// arena rule holds after it wherever it held before.
    pub fn split(&mut self, tree: &Tree, part: u32) -> TreeSeat
        requires own { IsOf tree.now self.old }
        requires can { CanSplit self.old.view part }
        requires owed { self.old.owed ≡ [] }
        ensures own { IsOf tree.now self.new × IsOf tree.now result }
        ensures kept { self.new.view ≡ kept_part self.old.view part }
        ensures given { result.view ≡ given_part self.old.view part }
        ensures owed { (self.new.owed ≡ []) × (result.owed ≡ []) }
        ensures order { IsView self.new.view × IsView result.view }
        ensures rule { SplitKeepsRule self.old.view self.new.view result.view }
    {
        TreeSeat {
            seat: cut::<Brand>(&tree.table.shared, &mut self.seat, part),
        }
    }

    /// Joins the other seat: the seat stands for the workers of both, and knows what both knew.
    /// Both are of this tree, and all their workers have ended. The arena rule holds after it
    /// wherever it held before.
    pub fn join(&mut self, tree: &Tree, other: TreeSeat)
        requires own { IsOf tree.now self.old × IsOf tree.now other }
        requires can { CanJoin self.old.view other.view }
        requires owed { (self.old.owed ≡ []) × (other.owed ≡ []) }
        ensures own { IsOf tree.now self.new }
        ensures both { self.new.view ≡ joined self.old.view other.view }
        ensures owed { self.new.owed ≡ [] }
        ensures order { IsView self.new.view }
        ensures rule { JoinKeepsRule self.old.view other.view self.new.view }
    {
        let TreeSeat { seat } = other;
        merge::<Brand>(&tree.table.shared, &mut self.seat, seat);
    }

    /// One atomic step on one word of the tree. The seat is of this tree and its view fits the
    /// step, which is not `Done`. It answers the old value of the word, and 0 to a write and a
    /// note, as it is found in an arena of which the arena rule holds, before the step and after
    /// it. What the seat knows stays known, and a look at a node's tally answers at least the
    /// visits that this seat itself made there.
    #[inline(always)]
    pub fn act(&mut self, tree: &Tree, op: Op) -> u64
        requires own { IsOf tree.now self.old }
        requires fits { FitsStep self.old.view op }
        requires step { op ≢ Done }
        ensures own { IsOf tree.now self.new }
        ensures answer { MayAnswer self.old.view op result }
        ensures rule { IsMadeInRule (debtor_of self.old) op result }
        ensures view { self.new.view ≡ after self.old.view op result }
        ensures owed { self.new.owed ≡ self.old.owed }
        ensures order { IsView self.new.view }
        ensures known { AreAmong self.old.view.known self.new.view.known }
        ensures visits { AnswersOwnVisits self.old.view op result }
    {
        step(&tree.table.shared, &mut self.seat, op)
    }

    /// Begins to owe an add to the seen word of a known node, in the place of making it: the view
    /// is the one after the add, and the add is owed. The seat is of this tree and has no copy of
    /// the words. The arena rule holds before it and after it.
    #[inline(always)]
    pub fn owe(&mut self, tree: &Tree, word: u32, won: bool)
        requires own { IsOf tree.now self.old }
        requires can { CanOwe (debtor_of self.old) (record { word = word; won = won }) }
        ensures own { IsOf tree.now self.new }
        ensures answer { MayAnswer self.old.view (Add word won) 0 }
        ensures rule { IsOwedInRule (debtor_of self.old) (record { word = word; won = won }) }
        ensures view { self.new.view ≡ after self.old.view (Add word won) 0 }
        ensures owed { self.new.owed ≡ record { word = word; won = won } ∷ self.old.owed }
        ensures order { IsView self.new.view }
        ensures known { AreAmong self.old.view.known self.new.view.known }
    {
        let at = tree.quiet_word();
        owe(&tree.table.shared, &mut self.seat, at, word, won);
    }

    /// Gives all that the seat owes to a word, in one atomic add. The seat is of this tree. The
    /// arena rule holds before it and after it.
    #[inline(always)]
    pub fn give(&mut self, tree: &Tree, word: u32, amount: u64)
        requires own { IsOf tree.now self.old }
        requires can { CanGive (debtor_of self.old) word amount }
        ensures own { IsOf tree.now self.new }
        ensures rule { IsGivenInRule (debtor_of self.old) word amount }
        ensures view { self.new.view ≡ self.old.view }
        ensures owed { self.new.owed ≡ debts_but word self.old.owed }
        ensures order { IsView self.new.view }
    {
        give(&tree.table.shared, &mut self.seat, word, amount);
    }
}
