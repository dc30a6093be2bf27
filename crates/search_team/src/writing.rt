//! The nodes of a new block, written in a loop of their own.

ghost use Rattle.std.specs.Prelude.{◌≡◌, ◌≢◌, ◌<◌, []};
ghost use Rattle.walker.specs.NewNodes.{AreNodesOf, with_nodes};
ghost use Rattle.walker.specs.Belongs.{Belongs};
ghost use Rattle.walker.specs.declared.TheConstants.{PAST_WORDS};
ghost use Rattle.walker.specs.declared.stages.Stage.TheVariants.{Writing};
ghost use Rattle.tree_rule.specs.Seats.{IsOf};
ghost use Rattle.search_team.specs.Runs.{HasRun, HasGone};

use tree_rule::{Tree, TreeSeat};
use walker::{NewNodes, Walker};

// Writes the next of the new nodes, which the walker lent.
#[inline(always)]
fn write_node(tree: &Tree, seat: &mut TreeSeat, walker: &Walker, nodes: &mut NewNodes)
    requires own { IsOf tree.now seat.old }
    requires stage { walker.now.stage ≡ Writing }
    requires nodes { AreNodesOf walker.now nodes.old }
    requires more { nodes.old.cells ≢ [] }
    requires belongs { Belongs (with_nodes walker.now nodes.old) seat.old.view }
    ensures own { IsOf tree.now seat.new }
    ensures owed { seat.new.owed ≡ seat.old.owed }
    ensures nodes { AreNodesOf walker.now nodes.new }
    ensures gone { HasGone (with_nodes walker.now nodes.old) seat.old.view
        (with_nodes walker.now nodes.new) seat.new.view }
    ensures node { walker.now.node < PAST_WORDS }
{
    let (write_move, write_link, write_tally, write_seen) = nodes.node_ops();
    let _moved = seat.act(tree, write_move);
    let _linked = seat.act(tree, write_link);
    let _tally = seat.act(tree, write_tally);
    let _seen = seat.act(tree, write_seen);
    nodes.got_node();
}

/// If the walker has written the header of a new block and no node of it, writes all its nodes.
#[tactic(auto, using(crate::proofs::NodeWrites::nodes_rules))]
#[inline(always)]
pub(crate) fn write_new_nodes(tree: &Tree, seat: &mut TreeSeat, walker: &mut Walker)
    requires own { IsOf tree.now seat.old }
    requires belongs { Belongs walker.old seat.old.view }
    ensures own { IsOf tree.now seat.new }
    ensures owed { seat.new.owed ≡ seat.old.owed }
    ensures run { HasRun walker.old seat.old.view walker.new seat.new.view }
{
    let Some(mut nodes) = walker.new_nodes() else {
        return;
    };
    'nodes: while !nodes.is_done() {
        write_node(tree, seat, walker, &mut nodes);
    }
    walker.put_new_nodes(nodes);
}
