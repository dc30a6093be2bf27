//! The shape of the search of a turn.

ghost use Rattle.std.specs.Prelude.{◌≡◌, ◌+◌, ◌*◌, ◌%◌, ◌^◌};
ghost use Rattle.hex_board.specs.Positions.{AllEmpty};
ghost use Rattle.tree_words.specs.Settings.{AreInRange, IsAny};
ghost use Rattle.hex_plan.specs.Good.{IsTurnShape};
ghost use Rattle.hex_plan.specs.Seeds.{turn_knobs};

use hex_board::Board;
use hex_cells::{CellSet, Colour};
use tree_words::{Knobs, Shape};

/// The seeds of two turns that follow one another are this far apart. The playouts of one search
/// have seeds of their own, less than this above that of the turn.
const TURN_STEP: u64 = 1 << 32;

// The seed of the turn with this number.
fn seed_of(seed: u64, number: u64) -> u64
    ensures { result ≡ (seed + number * 2 ^ 32) % 2 ^ 64 }
{
    seed.wrapping_add(number.wrapping_mul(TURN_STEP))
}

// The knobs of the turn with this number.
fn turn_knobs(knobs: &Knobs, number: u64) -> Knobs
    requires { AreInRange knobs.now }
    ensures value { result ≡ turn_knobs knobs.now number }
    ensures ranges { AreInRange result }
{
    Knobs {
        seed: seed_of(knobs.seed, number),
        ..*knobs
    }
}

/// The shape of the search of the turn with this number, at which `colour` is to move and to place
/// a stone on an allowed cell: the seed is `S + number·2^32` modulo 2^64, S being that of the
/// knobs. A cell is allowed, the allowed cells are empty, and the knobs are in their ranges.
pub fn turn_shape(
    board: &Board,
    colour: Colour,
    allowed: CellSet,
    knobs: &Knobs,
    number: u64,
) -> Shape
    requires any { IsAny allowed }
    requires empty { AllEmpty board.now allowed }
    requires ranges { AreInRange knobs.now }
    ensures { IsTurnShape knobs.now board.now colour number allowed result }
{
    Shape::make(board, colour, allowed, &turn_knobs(knobs, number))
}
