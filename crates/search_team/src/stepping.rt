//! One step of a walker on the words of the tree.

ghost use Rattle.std.specs.Prelude.{◌≡◌, ◌≢◌};
ghost use Rattle.tree_words.specs.declared.steps.Op.TheVariants.{Done};
ghost use Rattle.walker.specs.Machine.{op_of};
ghost use Rattle.walker.specs.Belongs.{Belongs, MakesStep};
ghost use Rattle.tree_rule.specs.Seats.{IsOf};
ghost use Rattle.search_team.specs.Runs.{HasGone};

use tree_rule::{Tree, TreeSeat};
use tree_words::Op;
use walker::Walker;

/// Makes the walker's next step.
#[inline(always)]
pub(crate) fn step(tree: &Tree, seat: &mut TreeSeat, walker: &mut Walker, op: Op)
    requires own { IsOf tree.now seat.old }
    requires belongs { Belongs walker.old seat.old.view }
    requires next { op ≡ op_of walker.old }
    requires some { op ≢ Done }
    ensures own { IsOf tree.now seat.new }
    ensures owed { seat.new.owed ≡ seat.old.owed }
    ensures step { MakesStep walker.old seat.old.view walker.new seat.new.view }
    ensures gone { HasGone walker.old seat.old.view walker.new seat.new.view }
{
    let answer = seat.act(tree, op);
    walker.got(answer);
}
