//! How a text begins: its name and the fields that tell the shape.

ghost use Rattle.std.specs.Prelude.{◌≡◌, MatchOption};
ghost use Rattle.hex_cells.specs.declared.colours.Colour.{Colour};
ghost use Rattle.tree_words.specs.Settings.{AreInRange};
ghost use Rattle.trace_audit.specs.Fields.{AreOfNoSet, AreOfSet, IsWithin, TellBoard, TellKnobs};
ghost use Rattle.trace_audit.specs.Fields.{TellNoBoard, TellNoKnobs, TellNoShape, TellShape};
ghost use Rattle.trace_audit.specs.Traces.{colour_number};

use super::places::{
    ALLOWED_FIELD, BLACK_FIELD, EXPAND_FIELD, FIELDS, PLAYER_FIELD, PLAYOUTS_FIELD, SEED_FIELD,
    SIZE_FIELD, WEIGHT_FIELD, WHITE_FIELD, WORDS_FIELD, WORKERS_FIELD,
};
use hex_board::Board;
use hex_cells::{CellSet, Colour, MOST_CELLS, Size};
use tree_words::layout::HIGH_EMPTIES_SHIFT;
use tree_words::{Knobs, LEAST_WORDS, MOST_EXPAND, MOST_PLAYOUTS, MOST_WORDS, MOST_WORKERS, Shape};
use uct_table::MOST_WEIGHT;

// The number, if it is in the range.
fn in_range(word: u64, least: u32, most: u32) -> Option<u32>
    ensures { MatchOption result (¬ (IsWithin least most word))
        (λ n. (n ≡ word) × IsWithin least most n) }
{
    if u64::from(least) <= word && word <= u64::from(most) {
        Some(word as u32)
    } else {
        None
    }
}

// The set of cells of two words.
fn set_of(low: u64, high: u64) -> Option<CellSet>
    ensures { MatchOption result (AreOfNoSet low high) (AreOfSet low high) }
{
    if high >> (MOST_CELLS - HIGH_EMPTIES_SHIFT) != 0 {
        return None;
    }
    Some(CellSet::of_bits((u128::from(high) << HIGH_EMPTIES_SHIFT) + u128::from(low)))
}

// The player of a word.
fn colour_of(word: u64) -> Option<Colour>
    ensures { MatchOption result ((c : Colour) → ¬ (word ≡ colour_number c))
        (λ c. word ≡ colour_number c) }
{
    match word {
        0 => Some(Colour::Black),
        1 => Some(Colour::White),
        _ => None,
    }
}

// The board that the fields tell.
fn board_of(fields: &[u64; FIELDS]) -> Option<Board>
    ensures { MatchOption result (TellNoBoard fields.now) (TellBoard fields.now) }
{
    let Some(number) = in_range(fields[SIZE_FIELD], 1, Size::MAX) else {
        return None;
    };
    let Some(size) = Size::of(number) else {
        return None;
    };
    let Some(black) = set_of(fields[BLACK_FIELD], fields[BLACK_FIELD + 1]) else {
        return None;
    };
    let Some(white) = set_of(fields[WHITE_FIELD], fields[WHITE_FIELD + 1]) else {
        return None;
    };
    let all = CellSet::all(size);
    if !black.inside(all) || !white.inside(all) || black.meets(white) {
        return None;
    }
    Some(Board::of(size, black, white))
}

// The knobs that the fields tell.
fn knobs_of(fields: &[u64; FIELDS]) -> Option<Knobs>
    ensures { MatchOption result (TellNoKnobs fields.now)
        (λ k. TellKnobs fields.now k × AreInRange k) }
{
    Some(Knobs {
        workers: in_range(fields[WORKERS_FIELD], 1, MOST_WORKERS)?,
        playouts: in_range(fields[PLAYOUTS_FIELD], 1, MOST_PLAYOUTS)?,
        seed: fields[SEED_FIELD],
        words: in_range(fields[WORDS_FIELD], LEAST_WORDS, MOST_WORDS)?,
        expand: in_range(fields[EXPAND_FIELD], 1, MOST_EXPAND)?,
        weight: in_range(fields[WEIGHT_FIELD], 0, MOST_WEIGHT)?,
    })
}

/// The shape that the fields tell; `None` if one of them is out of its range, stones meet or lie
/// off the board, or the allowed cells are none or not all empty.
pub(crate) fn shape_of(fields: &[u64; FIELDS]) -> Option<Shape>
    ensures { MatchOption result (TellNoShape fields.now) (TellShape fields.now) }
{
    let Some(board) = board_of(fields) else {
        return None;
    };
    let Some(colour) = colour_of(fields[PLAYER_FIELD]) else {
        return None;
    };
    let Some(allowed) = set_of(fields[ALLOWED_FIELD], fields[ALLOWED_FIELD + 1]) else {
        return None;
    };
    let Some(knobs) = knobs_of(fields) else {
        return None;
    };
    let Some(_least) = allowed.least() else {
        return None;
    };
    if !allowed.inside(board.empties()) {
        return None;
    }
    Some(Shape::make(&board, colour, allowed, &knobs))
}
