//! The adds to a block's seen words, in a loop of their own: they are made, or held back.

ghost use Rattle.std.specs.Prelude.{◌≡◌, ◌≢◌, ◌<◌, [], None};
ghost use Rattle.walker.specs.Machine.{with_climb};
ghost use Rattle.walker.specs.Belongs.{Belongs, MakesStep};
ghost use Rattle.walker.specs.declared.TheConstants.{PAST_WORDS};
ghost use Rattle.tree_rule.specs.Seats.{IsOf};
ghost use Rattle.search_team.specs.Runs.{HasRun, HasGone};
ghost use Rattle.search_team.specs.Debts.{HoldsDebts};

use super::holding::{Sums, make_or_owe};
use tree_rule::{Tree, TreeSeat};
use walker::{Climb, Walker};

// Makes or owes the next add of the climb, which the walker lent, and answers whether the half in
// hand has another.
#[inline(always)]
fn add(
    tree: &Tree,
    seat: &mut TreeSeat,
    walker: &Walker,
    climb: &mut Climb,
    sums: &mut Sums,
) -> bool
    requires own { IsOf tree.now seat.old }
    requires belongs { Belongs (with_climb walker.now climb.old) seat.old.view }
    requires more { climb.old ≢ [] }
    requires lone { seat.old.view.whole ≡ None }
    requires debts { HoldsDebts tree.now.shape sums.old seat.old.owed }
    ensures own { IsOf tree.now seat.new }
    ensures debts { HoldsDebts tree.now.shape sums.new seat.new.owed }
    ensures step { MakesStep (with_climb walker.now climb.old) seat.old.view
        (with_climb walker.now climb.new) seat.new.view }
    ensures gone { HasGone (with_climb walker.now climb.old) seat.old.view
        (with_climb walker.now climb.new) seat.new.view }
    ensures node { walker.now.node < PAST_WORDS }
{
    let _answer = make_or_owe(tree, seat, sums, climb.op());
    climb.got()
}

// Makes or owes the adds of the climb, which the walker lent, of the half in hand.
#[tactic(auto, using(crate::proofs::Going::run_rules))]
#[inline(always)]
fn add_half(tree: &Tree, seat: &mut TreeSeat, walker: &Walker, climb: &mut Climb, sums: &mut Sums)
    requires own { IsOf tree.now seat.old }
    requires belongs { Belongs (with_climb walker.now climb.old) seat.old.view }
    requires lone { seat.old.view.whole ≡ None }
    requires debts { HoldsDebts tree.now.shape sums.old seat.old.owed }
    ensures own { IsOf tree.now seat.new }
    ensures debts { HoldsDebts tree.now.shape sums.new seat.new.owed }
    ensures run { HasRun (with_climb walker.now climb.old) seat.old.view
        (with_climb walker.now climb.new) seat.new.view }
    ensures node { climb.old ≢ [] → walker.now.node < PAST_WORDS }
{
    'adds: while !climb.is_done() {
        if !add(tree, seat, walker, climb, sums) {
            return;
        }
    }
}

/// If the walker adds to a block's seen words, makes or owes all its adds there, each half's in a
/// loop of its own.
#[tactic(auto, using(crate::proofs::SeenAdds::climb_rules))]
#[inline(always)]
pub(crate) fn make_seen_adds(tree: &Tree, seat: &mut TreeSeat, walker: &mut Walker, sums: &mut Sums)
    requires own { IsOf tree.now seat.old }
    requires belongs { Belongs walker.old seat.old.view }
    requires lone { seat.old.view.whole ≡ None }
    requires debts { HoldsDebts tree.now.shape sums.old seat.old.owed }
    ensures own { IsOf tree.now seat.new }
    ensures debts { HoldsDebts tree.now.shape sums.new seat.new.owed }
    ensures run { HasRun walker.old seat.old.view walker.new seat.new.view }
{
    let Some(mut climb) = walker.climb() else {
        return;
    };
    add_half(tree, seat, walker, &mut climb, sums);
    add_half(tree, seat, walker, &mut climb, sums);
    walker.put_climb(climb);
}
