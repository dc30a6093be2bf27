//! Walks of one worker, step by step on a shared tree: each with its answer.

ghost use Rattle.std.specs.Prelude.{◌≡◌};
ghost use Rattle.walker.specs.Belongs.{Belongs};
ghost use Rattle.tree_rule.specs.Seats.{IsOf};
ghost use Rattle.search_tests.specs.Scripts.{IsUndrawn};

use super::of_sim_run::shape_of;
use std::test::Fail;
use tree_rule::{Tree, TreeSeat};
use tree_words::{Op, Shape};
use walker::Walker;

// Steps, with their answers.
type Lines<'a> = &'a [(Op, u64)];

// A worker who has drawn nothing, for a seat that stands for him alone.
fn new_walker(tree: &Tree, seat: &TreeSeat, shape: &Shape) -> Walker
    requires shape { tree.now.shape ≡ shape.now }
    requires fresh { IsUndrawn tree.now seat.now }
    ensures belongs { Belongs result seat.now.view }
{
    let walker = Walker::new(shape);
    walker
}

// Makes the next step of the worker, and tells what it was and what it was answered, unless he is
// done.
fn make(tree: &Tree, seat: &mut TreeSeat, walker: &mut Walker) -> Option<(Op, u64)>
    requires own { IsOf tree.now seat.old }
    requires belongs { Belongs walker.old seat.old.view }
    ensures own { IsOf tree.now seat.new }
    ensures belongs { Belongs walker.new seat.new.view }
{
    let op = walker.op();
    if op == Op::Done {
        return None;
    }
    let answer = seat.act(tree, op);
    walker.got(answer);
    Some((op, answer))
}

// Makes so many steps.
fn pass_over(tree: &Tree, seat: &mut TreeSeat, walker: &mut Walker, steps: u32)
    requires own { IsOf tree.now seat.old }
    requires belongs { Belongs walker.old seat.old.view }
    ensures own { IsOf tree.now seat.new }
    ensures belongs { Belongs walker.new seat.new.view }
{
    'steps: for _ in 0..steps {
        make(tree, seat, walker);
    }
}

// Whether the next steps and their answers are these.
fn makes(tree: &Tree, seat: &mut TreeSeat, walker: &mut Walker, lines: Lines) -> bool
    requires own { IsOf tree.now seat.old }
    requires belongs { Belongs walker.old seat.old.view }
    ensures own { IsOf tree.now seat.new }
    ensures belongs { Belongs walker.new seat.new.view }
{
    'lines: for &line in lines {
        if make(tree, seat, walker) != Some(line) {
            return false;
        }
    }
    true
}

// The root stands at word 3, its block at 7, and a1 at 11.
#[test]
fn all_steps_of_one_worker(rt: HostRuntime) -> Result<(), Fail> {
    let shape = shape_of((1, 1, 1, 8)).ok_or("a shape")?;
    assert!(rt; shape.knobs().workers == 1);
    let (tree, mut seat) = Tree::make(rt.alloc(), &shape)?;
    let mut walker = new_walker(&tree, &seat, &shape);
    let to_the_child = [
        (Op::Draw, 0),
        (Op::Look(5), 0),
        (Op::Look(4), 7),
        (Op::Look(7), 3),
        (Op::Look(8), 1),
        (Op::Look(9), 0),
        (Op::Look(10), 1),
    ];
    assert!(rt; walker.scan().is_none() && walker.climb().is_none());
    assert!(rt; makes(&tree, &mut seat, &mut walker, &to_the_child));
    let scan = walker.scan().ok_or("a scan")?;
    assert_eq!(rt; (scan.op(), scan.is_done()), (Op::Look(11), false));
    let from_the_child = [
        (Op::Look(11), 0),
        (Op::Look(13), 0),
        (Op::Look(14), 0),
        (Op::Look(12), 0),
        (Op::Add(13, true), 0),
        (Op::Add(14, true), 0),
        (Op::Add(5, false), 0),
        (Op::Note(0, 22), 0),
        (Op::Draw, 1),
    ];
    assert!(rt; makes(&tree, &mut seat, &mut walker, &from_the_child));
    assert_eq!(rt; walker.op(), Op::Done);
    Ok(())
}

// The root stands at word 7, its block at 11, and its nodes at 15, 19, 23 and 27; the walk makes a
// block at 31. Each of the four walks before has 25 steps.
#[test]
fn a_walk_with_a_claim(rt: HostRuntime) -> Result<(), Fail> {
    let shape = shape_of((2, 1, 5, 1)).ok_or("a shape")?;
    assert!(rt; shape.knobs().workers == 1);
    let (tree, mut seat) = Tree::make(rt.alloc(), &shape)?;
    let mut walker = new_walker(&tree, &seat, &shape);
    pass_over(&tree, &mut seat, &mut walker, 100);
    let way_down = [
        (Op::Draw, 4),
        (Op::Look(9), 17_179_869_185),
        (Op::Look(8), 11),
        (Op::Look(11), 7),
        (Op::Look(12), 15),
        (Op::Look(13), 0),
        (Op::Look(14), 4),
        (Op::Look(15), 0),
        (Op::Look(17), 4_294_967_296),
        (Op::Look(18), 4_294_967_296),
        (Op::Look(19), 257),
        (Op::Look(21), 4_294_967_297),
        (Op::Look(22), 12_884_901_891),
        (Op::Look(23), 514),
        (Op::Look(25), 4_294_967_297),
        (Op::Look(26), 8_589_934_594),
        (Op::Look(27), 771),
        (Op::Look(29), 4_294_967_297),
        (Op::Look(30), 8_589_934_593),
        (Op::Look(20), 0),
    ];
    let header = [
        (Op::Claim(16), 31),
        (Op::Write(31, 19), 0),
        (Op::Write(32, 13), 0),
        (Op::Write(33, 0), 0),
        (Op::Write(34, 3), 0),
    ];
    let nodes = [
        (Op::Write(35, 0), 0),
        (Op::Write(36, 0), 0),
        (Op::Write(37, 0), 0),
        (Op::Write(38, 0), 0),
        (Op::Write(39, 258), 0),
        (Op::Write(40, 0), 0),
        (Op::Write(41, 0), 0),
        (Op::Write(42, 0), 0),
        (Op::Write(43, 515), 0),
        (Op::Write(44, 0), 0),
        (Op::Write(45, 0), 0),
        (Op::Write(46, 0), 0),
        (Op::Publish(20, 31), 0),
    ];
    let leaf = [
        (Op::Look(31), 19),
        (Op::Look(32), 13),
        (Op::Look(33), 0),
        (Op::Look(34), 3),
        (Op::Look(35), 0),
        (Op::Look(37), 0),
        (Op::Look(38), 0),
        (Op::Look(39), 258),
        (Op::Look(41), 0),
        (Op::Look(42), 0),
        (Op::Look(43), 515),
        (Op::Look(45), 0),
        (Op::Look(46), 0),
        (Op::Look(36), 0),
    ];
    let tally = [(Op::Add(37, false), 0)];
    let way_up = [
        (Op::Add(38, false), 0),
        (Op::Add(46, false), 0),
        (Op::Add(21, true), 4_294_967_297),
        (Op::Add(22, true), 12_884_901_891),
        (Op::Add(26, true), 8_589_934_594),
        (Op::Add(9, false), 17_179_869_185),
        (Op::Note(4, 70), 0),
    ];
    assert!(rt; makes(&tree, &mut seat, &mut walker, &way_down));
    assert!(rt; makes(&tree, &mut seat, &mut walker, &header));
    assert!(rt; walker.new_nodes().is_some());
    assert!(rt; makes(&tree, &mut seat, &mut walker, &nodes));
    assert!(rt; makes(&tree, &mut seat, &mut walker, &leaf));
    assert!(rt; makes(&tree, &mut seat, &mut walker, &tally));
    let climb = walker.climb().ok_or("a climb")?;
    assert_eq!(rt; (climb.op(), climb.is_done()), (Op::Add(38, false), false));
    assert!(rt; makes(&tree, &mut seat, &mut walker, &way_up));
    Ok(())
}
