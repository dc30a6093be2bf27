//! Each call once with ample memory, a swap that is taken, and each refusal.

ghost use Rattle.std.specs.Prelude.{◌*◌, ◌<◌};

use super::of_hex_board::cell_at;
use hex_board::Board;
use hex_cells::{Cell, CellSet, Colour, Size};
use hex_game::{Game, Move, NoMove, PlayError, Step};
use std::alloc::Global;
use std::process::Abort;
use std::test::Fail;

// A stone on the cell at a column and row of the game's board, which must have it.
fn stone_at(
    rt: &impl Abort,
    game: &mut Game,
    colour: Colour,
    column: u32,
    row: u32,
) -> Result<(), PlayError> {
    let size = game.board().size();
    assert!(rt; column < size.get() && row < size.get());
    game.play(colour, Move::Stone(Cell::at(size, column, row)))
}

#[test]
fn a_short_game(rt: HostRuntime) -> Result<(), Fail> {
    let size = Size::of(3).ok_or("a size")?;
    let bare = Board::empty(size);
    let mut game = Game::make(rt.alloc(), &bare)?;
    assert_eq!(rt; game.undo(), Err(NoMove));
    assert_eq!(rt;
        game.play(Colour::White, Move::Swap),
        Err(PlayError::BadSwap)
    );
    game.clear(size);
    assert_eq!(rt; stone_at(&rt, &mut game, Colour::Black, 0, 0), Ok(()));
    game.steps_are_legal();
    assert_eq!(rt; game.undo(), Ok(()));
    assert!(rt; game.steps().is_empty());
    assert_eq!(rt; game.start().stones(Colour::Black).count(), 0);
    Ok(())
}

// A game of size 3 in which Black's b3 was taken by White.
fn swapped(rt: &impl Abort, alloc: Global) -> Result<Game, Fail> {
    let bare = Board::empty(Size::of(3).ok_or("a size")?);
    let mut game = Game::make(alloc, &bare)?;
    assert_eq!(rt; stone_at(rt, &mut game, Colour::Black, 1, 2), Ok(()));
    assert_eq!(rt; game.play(Colour::White, Move::Swap), Ok(()));
    Ok(game)
}

#[test]
fn a_swap_is_taken(rt: HostRuntime) -> Result<(), Fail> {
    let game = swapped(&rt, rt.alloc())?;
    // Black's b3 becomes White's c2, which is its mirror image.
    let now = *game.board();
    assert!(rt; now.stones(Colour::Black).is_empty());
    let mirrored = cell_at(&rt, now.size(), 2, 1);
    assert_eq!(rt; now.stones(Colour::White), CellSet::none().with(mirrored));
    let swap = Step {
        colour: Colour::White,
        what: Move::Swap,
    };
    assert_eq!(rt; game.steps().len(), 2);
    assert_eq!(rt; game.steps().get(1), Some(&swap));
    Ok(())
}

#[test]
fn a_swap_is_taken_once(rt: HostRuntime) -> Result<(), Fail> {
    let mut game = swapped(&rt, rt.alloc())?;
    let again = game.play(Colour::White, Move::Swap);
    assert_eq!(rt; again, Err(PlayError::BadSwap));
    let occupied = stone_at(&rt, &mut game, Colour::Black, 2, 1);
    assert_eq!(rt; occupied, Err(PlayError::Occupied));
    assert_eq!(rt; game.undo(), Ok(()));
    assert_eq!(rt; game.board().stones(Colour::Black).count(), 1);
    assert!(rt; game.board().stones(Colour::White).is_empty());
    Ok(())
}

#[test]
fn a_game_that_is_over(rt: HostRuntime) -> Result<(), Fail> {
    let size = Size::of(1).ok_or("a size")?;
    let bare = Board::empty(size);
    let mut game = Game::make(rt.alloc(), &bare)?;
    assert_eq!(rt; stone_at(&rt, &mut game, Colour::Black, 0, 0), Ok(()));
    // `Over` comes before the other causes.
    assert_eq!(rt;
        stone_at(&rt, &mut game, Colour::White, 0, 0),
        Err(PlayError::Over)
    );
    assert_eq!(rt; game.play(Colour::White, Move::Swap), Err(PlayError::Over));
    assert_eq!(rt; game.steps().len(), 1);
    Ok(())
}
