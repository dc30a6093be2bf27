//! A node and a block, as another program wrote their words, and trees whose area is widened.

ghost use Rattle.std.specs.Prelude.{◌≡◌, IfSome};

use hex_board::Board;
use hex_cells::{Cell, CellSet, Colour, Size};
use seq_search::plain_search;
use std::alloc::Global;
use std::test::Fail;
use tree_words::types::NodeFields;
use tree_words::{Closed, Knobs, Memory, Shape, block, node};

// The root's child b1 and the block below it, after five playouts on size 2 with the expand number
// 1, seed 0.
#[test]
fn reads_a_node_and_the_block_below_it(rt: HostRuntime) -> Result<(), Fail> {
    let child = [257, 31, 8589934594, 17179869188];
    let want = NodeFields {
        cell: 1,
        place: 1,
        link: 31,
        visits: 2,
        wins: 2,
        seen: 4,
        seen_wins: 4,
    };
    assert_eq!(rt; node(&child, 0), want);
    let header = [19, 13, 0, 3];
    let read = block(&header, 0);
    assert_eq!(rt; read.parent, 19);
    assert_eq!(rt; read.count, 3);
    let size = Size::of(2).ok_or("a size")?;
    let left = CellSet::none()
        .with(Cell::at(size, 0, 0))
        .with(Cell::at(size, 0, 1));
    assert_eq!(rt; read.empties, left.with(Cell::at(size, 1, 1)));
    Ok(())
}

// Size 5, the empty board, Black to move, with this expand number.
fn five_by_five(expand: u32) -> Option<Shape>
    ensures { IfSome result (λ shape. shape.knobs.words ≡ 2_048) }
{
    let size = Size::of(5)?;
    let board = Board::of(size, CellSet::none(), CellSet::none());
    let allowed = board.empties();
    if allowed.least().is_none() || !(1..=100).contains(&expand) {
        return None;
    }
    let knobs = Knobs {
        workers: 1,
        playouts: 100,
        seed: 0,
        words: 2_048,
        expand,
        weight: 180,
    };
    Some(Shape::make(&board, Colour::Black, allowed, &knobs))
}

// The tree of a search in an area of 1,024 words, as one of the shape.
fn searched_narrow(alloc: Global, shape: &Shape) -> Result<Option<Closed>, Memory>
    requires { shape.now.knobs.words ≡ 2_048 }
{
    let small = shape.narrowed(1_024);
    let narrow = plain_search(alloc, &small)?;
    Ok(narrow.widened(shape))
}

// With 100 no leaf claims a block, and with 1 each, which is more than both areas hold.
#[test]
fn widens_what_lies_inside(rt: HostRuntime) -> Result<(), Fail> {
    for (expand, is_inside) in [(100, true), (1, false)] {
        let shape = five_by_five(expand).ok_or("a shape")?;
        let whole = plain_search(rt.alloc(), &shape)?;
        let widened = searched_narrow(rt.alloc(), &shape)?;
        assert_eq!(rt; widened.is_some(), is_inside);
        let Some(widened) = widened else {
            continue;
        };
        assert_eq!(rt; widened.shape(), &shape);
        for (at, word) in whole.words().iter().enumerate() {
            assert_eq!(rt; widened.word(at), *word);
        }
    }
    Ok(())
}
