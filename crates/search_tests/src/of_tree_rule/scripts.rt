//! Scripts: steps of two seats of one tree, with their answers.

ghost use Rattle.std.specs.Prelude.{◌≡◌, ◌≢◌, true};
ghost use Rattle.tree_words.specs.declared.steps.Op.TheVariants.{Done};
ghost use Rattle.arena_rule.specs.Fits.{FitsStep};
ghost use Rattle.tree_rule.specs.Seats.{IsOf};
ghost use Rattle.search_tests.specs.Scripts.{stepping, after_script_line, after_script};
ghost use Rattle.search_tests.specs.Scripts.{both_views, AllFit};

use tree_rule::{Tree, TreeSeat};
use tree_words::Op;

// A line of a script: whether the second seat makes the step, the step, and its answer.
pub(super) type Line = (bool, Op, u64);

// Makes the step of a line, and tells whether it was answered as the line says.
fn make(tree: &Tree, a: &mut TreeSeat, b: &mut TreeSeat, line: &Line) -> bool
    requires own { IsOf tree.now a.old × IsOf tree.now b.old }
    requires fits { FitsStep (stepping (both_views a.old b.old) line.now) line.now.1 }
    requires step { line.now.1 ≢ Done }
    ensures own { IsOf tree.now a.new × IsOf tree.now b.new }
    ensures owed { (a.new.owed ≡ a.old.owed) × (b.new.owed ≡ b.old.owed) }
    ensures views { result ≡ true
        → both_views a.new b.new ≡ after_script_line (both_views a.old b.old) line.now }
{
    let &(second, op, answer) = line;
    if second {
        b.act(tree, op) == answer
    } else {
        a.act(tree, op) == answer
    }
}

// Makes the steps of a script, and tells whether each was answered as it says.
pub(super) fn follow(tree: &Tree, a: &mut TreeSeat, b: &mut TreeSeat, lines: &[Line]) -> bool
    requires own { IsOf tree.now a.old × IsOf tree.now b.old }
    requires fits { AllFit (both_views a.old b.old) lines.now }
    ensures own { IsOf tree.now a.new × IsOf tree.now b.new }
    ensures owed { (a.new.owed ≡ a.old.owed) × (b.new.owed ≡ b.old.owed) }
    ensures views { result ≡ true
        → both_views a.new b.new ≡ after_script (both_views a.old b.old) lines.now }
{
    for line in lines {
        if !make(tree, a, b, line) {
            return false;
        }
    }
    true
}
