//! Two workers who race for one block, step by step.

ghost use Rattle.std.specs.Prelude.{◌≡◌, IfSome, true};
ghost use Rattle.arena_rule.specs.Views.{opening_view};
ghost use Rattle.arena_rule.specs.Afters.{kept_part, given_part};
ghost use Rattle.tree_rule.specs.Seats.{IsOf};
ghost use Rattle.search_tests.specs.Scripts.{two_by_two, FillsForWhite, RaceEnds};

use super::scripts::follow;
use hex_board::Board;
use hex_cells::{Cell, CellSet, Colour, Size};
use play_out::play;
use std::test::Fail;
use tree_rule::{Tree, TreeSeat};
use tree_words::{Knobs, Op, Shape};

// Two workers with four playouts on the empty board of size 2.
fn shape_of_two_by_two() -> Option<Shape>
    ensures { IfSome result (λ s. s ≡ two_by_two) }
{
    let size = Size::of(2)?;
    let board = Board::of(size, CellSet::none(), CellSet::none());
    let knobs = Knobs {
        workers: 2,
        playouts: 4,
        seed: 0,
        words: 1024,
        expand: 1,
        weight: 180,
    };
    Some(Shape::make(&board, Colour::Black, CellSet::all(size), &knobs))
}

// Whether playout 0 after Black's stone on a1 fills the board as the script says: Black gets b2,
// and White wins.
fn fills_for_white() -> bool
    ensures { result ≡ true → FillsForWhite }
{
    let Some(size) = Size::of(2) else {
        return false;
    };
    let mut board = Board::of(size, CellSet::none(), CellSet::none());
    let a1 = Cell::numbered(0);
    if !board.empties().has(a1) {
        return false;
    }
    board.place(Colour::Black, a1);
    let ending = play(&board, Colour::White, 0, 0);
    ending.winner == Colour::White
        && ending.full.size().get() == 2
        && ending.full.stones(Colour::Black).bits() == 9
        && ending.full.stones(Colour::White).bits() == 6
}

// The first seat walks to a1; then both claim a block for it, write it and publish it. It tells
// whether each step was answered as it should be.
fn race(tree: &Tree, first: &mut TreeSeat, second: &mut TreeSeat) -> bool
    requires own { IsOf tree.now first.old × IsOf tree.now second.old }
    requires first { first.old.view ≡ kept_part (opening_view two_by_two) 1 }
    requires second { second.old.view ≡ given_part (opening_view two_by_two) 1 }
    requires fills { FillsForWhite }
    ensures ended { result ≡ true → RaceEnds first.new.view second.new.view }
{
    // The root is at word 6, its block at 10, and the cells' nodes at 14, 18, 22 and 26.
    let (a, b) = (false, true);
    let script = [
        (b, Op::Look(7), 10),
        (b, Op::Look(10), 6),
        (b, Op::Look(11), 15),
        (b, Op::Look(12), 0),
        (b, Op::Look(13), 4),
        (b, Op::Look(14), 0),
        (b, Op::Look(18), 257),
        (b, Op::Look(22), 514),
        (b, Op::Look(26), 771),
        (a, Op::Draw, 0),
        (a, Op::Look(8), 0),
        (a, Op::Look(7), 10),
        (a, Op::Look(10), 6),
        (a, Op::Look(11), 15),
        (a, Op::Look(12), 0),
        (a, Op::Look(13), 4),
        (a, Op::Look(14), 0),
        (a, Op::Look(16), 0),
        (a, Op::Look(17), 0),
        (a, Op::Look(18), 257),
        (a, Op::Look(20), 0),
        (a, Op::Look(21), 0),
        (a, Op::Look(22), 514),
        (a, Op::Look(24), 0),
        (a, Op::Look(25), 0),
        (a, Op::Look(26), 771),
        (a, Op::Look(28), 0),
        (a, Op::Look(29), 0),
        (a, Op::Look(15), 0),
        (a, Op::Add(16, false), 0),
        (a, Op::Add(17, false), 0),
        (a, Op::Add(29, false), 0),
        (a, Op::Add(8, true), 0),
        (a, Op::Note(0, 29), 0),
        (a, Op::Draw, 1),
        (b, Op::Draw, 2),
        (a, Op::Look(16), 4_294_967_296),
        (b, Op::Look(16), 4_294_967_296),
        (a, Op::Claim(16), 30),
        (b, Op::Claim(16), 46),
        (a, Op::Write(30, 14), 0),
        (a, Op::Write(31, 14), 0),
        (a, Op::Write(32, 0), 0),
        (a, Op::Write(33, 3), 0),
        (a, Op::Write(34, 1), 0),
        (a, Op::Write(35, 0), 0),
        (a, Op::Write(36, 0), 0),
        (a, Op::Write(37, 0), 0),
        (a, Op::Write(38, 258), 0),
        (a, Op::Write(39, 0), 0),
        (a, Op::Write(40, 0), 0),
        (a, Op::Write(41, 0), 0),
        (a, Op::Write(42, 515), 0),
        (a, Op::Write(43, 0), 0),
        (a, Op::Write(44, 0), 0),
        (a, Op::Write(45, 0), 0),
        (b, Op::Write(46, 14), 0),
        (b, Op::Write(47, 14), 0),
        (b, Op::Write(48, 0), 0),
        (b, Op::Write(49, 3), 0),
        (b, Op::Write(50, 1), 0),
        (b, Op::Write(51, 0), 0),
        (b, Op::Write(52, 0), 0),
        (b, Op::Write(53, 0), 0),
        (b, Op::Write(54, 258), 0),
        (b, Op::Write(55, 0), 0),
        (b, Op::Write(56, 0), 0),
        (b, Op::Write(57, 0), 0),
        (b, Op::Write(58, 515), 0),
        (b, Op::Write(59, 0), 0),
        (b, Op::Write(60, 0), 0),
        (b, Op::Write(61, 0), 0),
        (a, Op::Publish(15, 30), 0),
        (b, Op::Publish(15, 46), 30),
        (a, Op::Look(0), 62),
        (a, Op::Look(46), 14),
        (b, Op::Look(15), 30),
    ];
    follow(tree, first, second, &script)
}

#[test]
fn two_workers_race_for_a_block(rt: HostRuntime) -> Result<(), Fail> {
    let shape = shape_of_two_by_two().ok_or("a shape")?;
    assert!(rt; fills_for_white());
    let (tree, mut first) = Tree::make(rt.alloc(), &shape)?;
    let mut second = first.split(&tree, 1);
    assert!(rt; race(&tree, &mut first, &mut second));
    Ok(())
}
