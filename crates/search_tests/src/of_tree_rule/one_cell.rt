//! Two workers on a board of one cell, step by step.

ghost use Rattle.std.specs.Prelude.{◌≡◌, IfSome, true, []};
ghost use Rattle.arena_rule.specs.Views.{opening_view};
ghost use Rattle.arena_rule.specs.Afters.{kept_part, given_part};
ghost use Rattle.tree_rule.specs.Seats.{IsOf};
ghost use Rattle.search_tests.specs.Scripts.{one_cell, HaveEnded};

use super::scripts::follow;
use hex_board::Board;
use hex_cells::{CellSet, Colour, Size};
use std::test::Fail;
use std::thread::{Threads, join};
use tree_rule::{Tree, TreeSeat};
use tree_words::{Closed, Knobs, Op, Shape};

// Two workers with two playouts on one cell.
fn shape_of_one_cell() -> Option<Shape>
    ensures { IfSome result (λ s. s ≡ one_cell) }
{
    let size = Size::of(1)?;
    let board = Board::of(size, CellSet::none(), CellSet::none());
    let knobs = Knobs {
        workers: 2,
        playouts: 2,
        seed: 0,
        words: 1024,
        expand: 8,
        weight: 180,
    };
    Some(Shape::make(&board, Colour::Black, CellSet::all(size), &knobs))
}

// Makes two walks of two workers, and tells whether each step was answered as it should be.
fn walk(tree: &Tree, first: &mut TreeSeat, second: &mut TreeSeat) -> bool
    requires own { IsOf tree.now first.old × IsOf tree.now second.old }
    requires first { first.old.view ≡ kept_part (opening_view one_cell) 1 }
    requires second { second.old.view ≡ given_part (opening_view one_cell) 1 }
    ensures own { IsOf tree.now first.new × IsOf tree.now second.new }
    ensures owed { (first.new.owed ≡ first.old.owed) × (second.new.owed ≡ second.old.owed) }
    ensures ended { result ≡ true → HaveEnded first.new.view second.new.view }
{
    // The root is at word 4, its block at 8, and the cell's node at 12.
    let (a, b) = (false, true);
    let script = [
        (a, Op::Look(5), 8),
        (a, Op::Look(8), 4),
        (a, Op::Look(9), 1),
        (a, Op::Look(10), 0),
        (a, Op::Look(11), 1),
        (a, Op::Look(12), 0),
        (a, Op::Look(6), 0),
        (a, Op::Look(14), 0),
        (a, Op::Look(15), 0),
        (b, Op::Look(5), 8),
        (b, Op::Look(8), 4),
        (b, Op::Look(9), 1),
        (b, Op::Look(10), 0),
        (b, Op::Look(11), 1),
        (b, Op::Look(12), 0),
        (b, Op::Look(6), 0),
        (b, Op::Look(14), 0),
        (b, Op::Look(15), 0),
        (a, Op::Draw, 0),
        (b, Op::Draw, 1),
        (a, Op::Add(14, true), 0),
        (b, Op::Add(14, true), 4_294_967_297),
        (a, Op::Add(15, true), 0),
        (a, Op::Add(6, false), 0),
        (a, Op::Note(0, 24), 0),
        (b, Op::Add(15, true), 4_294_967_297),
        (b, Op::Add(6, false), 4_294_967_296),
        (b, Op::Note(1, 24), 0),
        (a, Op::Draw, 2),
        (b, Op::Draw, 3),
    ];
    follow(tree, first, second, &script)
}

// Joins the two seats, and closes the tree.
fn finish(tree: Tree, mut first: TreeSeat, second: TreeSeat) -> Closed
    requires own { IsOf tree first × IsOf tree second }
    requires shape { tree.shape ≡ one_cell }
    requires ended { HaveEnded first.view second.view }
    requires owed { (first.owed ≡ []) × (second.owed ≡ []) }
{
    first.join(&tree, second);
    tree.close(first)
}

// How many words are not 0.
fn marked(closed: &Closed) -> usize {
    closed.words().iter().filter(|w| **w != 0).count()
}

#[test]
fn two_workers_on_one_cell(rt: HostRuntime) -> Result<(), Fail> {
    let shape = shape_of_one_cell().ok_or("a shape")?;
    let (tree, mut first) = Tree::make(rt.alloc(), &shape)?;
    let mut second = first.split(&tree, 1);
    assert!(rt; walk(&tree, &mut first, &mut second));
    let closed = finish(tree, first, second);
    let wanted = [
        (0usize, 16),
        (1, 4),
        (2, 24),
        (3, 24),
        (5, 8),
        (6, 8_589_934_592),
        (8, 4),
        (9, 1),
        (11, 1),
        (14, 8_589_934_594),
        (15, 8_589_934_594),
    ];
    for (at, value) in wanted {
        assert_eq!(rt; closed.words().get(at).copied(), Some(value));
    }
    assert_eq!(rt; marked(&closed), wanted.len());
    Ok(())
}

// A seat's look at the link of the root.
fn look(tree: &Tree, mut seat: TreeSeat) -> u64
    requires own { IsOf tree.now seat }
    requires shape { tree.now.shape ≡ one_cell }
{
    seat.act(tree, Op::Look(5))
}

// Lets two seats look in two threads.
fn look_together<R: Threads + Sync>(
    rt: &R,
    tree: &Tree,
    first: TreeSeat,
    second: TreeSeat,
) -> (u64, u64)
    requires own { IsOf tree.now first × IsOf tree.now second }
    requires shape { tree.now.shape ≡ one_cell }
{
    join(
        rt,
        move || -> u64
            requires { IsOf tree.now first × (tree.now.shape ≡ one_cell) }
        { look(tree, first) },
        move || -> u64
            requires { IsOf tree.now second × (tree.now.shape ≡ one_cell) }
        { look(tree, second) },
    )
}

#[test]
fn two_threads_look(rt: HostRuntime) -> Result<(), Fail> {
    let shape = shape_of_one_cell().ok_or("a shape")?;
    let (tree, mut first) = Tree::make(rt.alloc(), &shape)?;
    let second = first.split(&tree, 1);
    assert_eq!(rt; look_together(&rt, &tree, first, second), (8, 8));
    Ok(())
}
