//! The looks at a block's header, in a loop of their own.

ghost use Rattle.std.specs.Prelude.{◌≡◌};
ghost use Rattle.walker.specs.Belongs.{Belongs};
ghost use Rattle.tree_rule.specs.Seats.{IsOf};
ghost use Rattle.search_team.specs.Runs.{HasRun};

use super::stepping::step;
use tree_rule::{Tree, TreeSeat};
use walker::Walker;

/// If the walker looks at a block's header, makes all its looks there.
#[tactic(auto, using(crate::proofs::Going::run_rules))]
#[inline(always)]
pub(crate) fn look_at_header(tree: &Tree, seat: &mut TreeSeat, walker: &mut Walker)
    requires own { IsOf tree.now seat.old }
    requires belongs { Belongs walker.old seat.old.view }
    ensures own { IsOf tree.now seat.new }
    ensures owed { seat.new.owed ≡ seat.old.owed }
    ensures run { HasRun walker.old seat.old.view walker.new seat.new.view }
{
    'looks: while walker.is_at_header() {
        let op = walker.op();
        step(tree, seat, walker, op);
    }
}
