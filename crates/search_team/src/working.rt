//! One worker's loop.

ghost use Rattle.std.specs.Prelude.{◌≡◌};
ghost use Rattle.search_team.specs.Works.{IsFresh, IsDone};

use super::climbing::make_seen_adds;
use super::heading::look_at_header;
use super::holding::{Sums, give_all};
use super::scanning::look_at_children;
use super::stepping::step;
use super::writing::write_new_nodes;
use seq_search::Gate;
use tree_rule::{Tree, TreeSeat};
use tree_words::{Op, Shape};
use walker::Walker;

/// Lets one worker work until its draw answers that no playout is left. The seat is of this tree
/// of this shape, stands for one worker, has drawn nothing, owes nothing and has no copy of the
/// words. The worker holds adds to seen words with many visits back, and gives them all before he
/// ends.
///
/// It takes no memory and never waits. The gate is passed as its trait says. It is a call of its
/// own, so that a stack has one table of sums and not one for each half of a team.
#[tactic(auto, using(crate::proofs::Going::run_rules))]
#[inline(never)]
pub fn work<G: Gate>(tree: &Tree, seat: &mut TreeSeat, shape: &Shape, worker: u32, gate: &G)
    requires shape { tree.now.shape ≡ shape.now }
    requires fresh { IsFresh tree.now seat.old 1 }
    ensures done { IsDone tree.now seat.new 1 }
{
    let mut walker = Walker::new(shape);
    let mut sums = Sums::none(shape.knobs().workers);
    let mut passed = false;
    'steps: loop {
        let op = walker.op();
        if op == Op::Done {
            give_all(tree, seat, &mut sums);
            return;
        }
        if !passed && is_add(op) {
            gate.pass(worker);
            passed = true;
        }
        step(tree, seat, &mut walker, op);
        // Most of a walk's steps are these: each kind has a loop of its own. A walk's first add is
        // no seen add.
        write_new_nodes(tree, seat, &mut walker);
        look_at_header(tree, seat, &mut walker);
        look_at_children(tree, seat, &mut walker);
        make_seen_adds(tree, seat, &mut walker, &mut sums);
    }
}

// Whether the step is an add to a count.
fn is_add(op: Op) -> bool {
    matches!(op, Op::Add(_, _))
}
