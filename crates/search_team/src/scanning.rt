//! The looks at a block's children, in a loop of their own.

ghost use Rattle.std.specs.Prelude.{◌≡◌, ◌<◌, ◌≤◌};
ghost use Rattle.walker.specs.Machine.{with_scan};
ghost use Rattle.walker.specs.Belongs.{Belongs};
ghost use Rattle.walker.specs.Choosing.{MayChoose};
ghost use Rattle.walker.specs.declared.stages.Stage.TheVariants.{Scanning};
ghost use Rattle.walker.specs.declared.scans.Phase.TheVariants.{Move};
ghost use Rattle.tree_rule.specs.Seats.{IsOf};
ghost use Rattle.search_team.specs.Runs.{HasRun, HasGone};

use tree_rule::{Tree, TreeSeat};
use walker::{Scan, Walker};

// Makes the three looks at the child in hand of the scan, which the walker lent.
#[inline(always)]
fn look_at_child(tree: &Tree, seat: &mut TreeSeat, walker: &Walker, scan: &mut Scan)
    requires own { IsOf tree.now seat.old }
    requires stage { walker.now.stage ≡ Scanning }
    requires phase { scan.old.phase ≡ Move }
    requires belongs { Belongs (with_scan walker.now scan.old) seat.old.view }
    requires more { scan.old.place < scan.old.count }
    ensures own { IsOf tree.now seat.new }
    ensures owed { seat.new.owed ≡ seat.old.owed }
    ensures phase { scan.new.phase ≡ Move }
    ensures gone { HasGone (with_scan walker.now scan.old) seat.old.view
        (with_scan walker.now scan.new) seat.new.view }
    ensures last { scan.new.count ≤ scan.new.place
        → MayChoose (record walker.now { scan = scan.new }) }
{
    let (look_at_move, look_at_tally, look_at_seen) = scan.child_ops();
    let moved = seat.act(tree, look_at_move);
    let tally = seat.act(tree, look_at_tally);
    let seen = seat.act(tree, look_at_seen);
    scan.got_child(moved, tally, seen);
}

// Makes looks at whole children until a child without visits is kept, or none is left.
#[tactic(auto, using(crate::proofs::Going::run_rules))]
#[inline(always)]
fn look_while_choosing(tree: &Tree, seat: &mut TreeSeat, walker: &Walker, scan: &mut Scan)
    requires own { IsOf tree.now seat.old }
    requires stage { walker.now.stage ≡ Scanning }
    requires phase { scan.old.phase ≡ Move }
    requires belongs { Belongs (with_scan walker.now scan.old) seat.old.view }
    requires more { scan.old.place < scan.old.count }
    ensures own { IsOf tree.now seat.new }
    ensures owed { seat.new.owed ≡ seat.old.owed }
    ensures phase { scan.new.phase ≡ Move }
    ensures run { HasRun (with_scan walker.now scan.old) seat.old.view
        (with_scan walker.now scan.new) seat.new.view }
    ensures last { scan.new.count ≤ scan.new.place
        → MayChoose (record walker.now { scan = scan.new }) }
{
    'looks: while !scan.is_done() && !scan.is_fresh() {
        look_at_child(tree, seat, walker, scan);
    }
}

/// If the walker looks at a block's children, makes all its looks there. A scan that was given
/// back between two looks at one child is left to single steps, which no worker here ever needs.
///
/// After a child without visits none is chosen any more: that part of the looks has a loop of its
/// own.
#[tactic(auto, using(crate::proofs::ChildLooks::scan_rules))]
#[inline(always)]
pub(crate) fn look_at_children(tree: &Tree, seat: &mut TreeSeat, walker: &mut Walker)
    requires own { IsOf tree.now seat.old }
    requires belongs { Belongs walker.old seat.old.view }
    ensures own { IsOf tree.now seat.new }
    ensures owed { seat.new.owed ≡ seat.old.owed }
    ensures run { HasRun walker.old seat.old.view walker.new seat.new.view }
{
    let Some(mut scan) = walker.scan() else {
        return;
    };
    if !scan.is_at_move() {
        return;
    }
    look_while_choosing(tree, seat, walker, &mut scan);
    'rest: while !scan.is_done() {
        look_at_child(tree, seat, walker, &mut scan);
    }
    walker.put_scan(scan);
}
