//! The rule of one step.

ghost use Rattle.std.specs.Prelude.{◌≡◌, ℕ, true, false, Some, None, ◌+◌, ◌*◌, ◌<◌, ◌==◌};
ghost use Rattle.std.specs.Prelude.{◌≤◌, ◌&&◌, length};
ghost use Rattle.hex_game.specs.Moves.{lone_black_stone};
ghost use Rattle.hex_board.specs.Positions.{placed, is_empty_at};
ghost use Rattle.hex_game.specs.Kept.{IsFew, stones_on};
ghost use Rattle.hex_game.specs.Games.{IsOnBoard, is_over, may_swap};
ghost use Rattle.hex_game.specs.Games.{refusal_on, moved, swapped, mirrored, IsPlayable};

use super::moves::{MOST_STEPS, Move, PlayError, Step};
use hex_board::Board;
use hex_cells::{Cell, CellSet, Colour, MOST_CELLS, Size};

/// Why the step is refused on this board, which the history led to from the start board.
pub fn cause_against(start: &Board, steps: &[Step], now: &Board, step: &Step) -> Option<PlayError>
    requires { IsOnBoard now.now step.now.what }
    ensures { result ≡ refusal_on start.now steps.now now.now step.now }
{
    if is_over_on(now) {
        return Some(PlayError::Over);
    }
    match step.what {
        Move::Stone(cell) => match now.at(cell) {
            Some(_) => Some(PlayError::Occupied),
            None => None,
        },
        Move::Swap => {
            if swap_may_come(start, steps, step.colour) {
                None
            } else {
                Some(PlayError::BadSwap)
            }
        }
    }
}

fn is_over_on(now: &Board) -> bool
    ensures { result ≡ is_over now.now }
{
    now.joined(Colour::Black) || now.joined(Colour::White)
}

/// A swap is White's alone, on a board that was empty, after Black's one stone.
fn swap_may_come(start: &Board, steps: &[Step], colour: Colour) -> bool
    ensures { result ≡ may_swap start.now steps.now colour }
{
    match colour {
        Colour::Black => false,
        Colour::White => is_bare(start) && lone_stone(steps).is_some(),
    }
}

fn is_bare(start: &Board) -> bool
    ensures { result ≡ (start.now.black == 0 && start.now.white == 0) }
{
    start.stones(Colour::Black) == CellSet::none() && start.stones(Colour::White) == CellSet::none()
}

/// The cell of Black's stone, if that one stone is the whole history.
fn lone_stone(steps: &[Step]) -> Option<Cell>
    ensures { result ≡ lone_black_stone steps.now }
{
    match steps {
        [
            Step {
                colour: Colour::Black,
                what: Move::Stone(cell),
            },
        ] => Some(*cell),
        _ => None,
    }
}

/// The board after a step that is legal there.
pub fn board_after(now: &Board, steps: &[Step], step: &Step) -> Board
    requires playable { IsPlayable now.now steps.now step.now.what }
    requires lone { (cell : ℕ) → lone_black_stone steps.now ≡ Some cell
        → cell < now.now.size * now.now.size }
    ensures value { result ≡ moved now.now steps.now step.now.colour step.now.what }
    ensures room { IsFew steps.now now.now → length steps.now < MOST_STEPS }
    ensures few { IsFew steps.now now.now → length steps.now ≤ stones_on result }
{
    match step.what {
        Move::Stone(cell) => with_stone(now, step.colour, cell),
        Move::Swap => match lone_stone(steps) {
            Some(cell) => mirror_stone(now, cell),
            None => unreachable!(),
        },
    }
}

/// The board with one stone more.
fn with_stone(now: &Board, colour: Colour, cell: Cell) -> Board
    requires { is_empty_at now.now cell ≡ true }
    ensures value { result ≡ placed now.now colour cell }
    ensures room { stones_on now.now < MOST_CELLS }
    ensures more { stones_on result ≡ stones_on now.now + 1 }
{
    // At most 121 cells and two sets that are apart leave room for one more stone.
    now.keeps();
    let mut next = *now;
    next.place(colour, cell);
    next
}

/// The board with White's stone alone, on the mirrored cell.
fn mirror_stone(now: &Board, cell: Cell) -> Board
    requires { cell < now.now.size * now.now.size }
    ensures value { result ≡ swapped now.now (Some cell) }
    ensures some { 1 ≤ stones_on result }
{
    let size = now.size();
    let mirrored = Cell::at(size, cell.row(size), cell.column(size));
    Board::of(size, CellSet::none(), CellSet::none().with(mirrored))
}
