//! The moves of a record as turns of a game.

ghost use Rattle.std.specs.Prelude.{◌≡◌, ◌==◌, ◌++◌, length, map, IfOk, OnOk};
ghost use Rattle.sgf_game.specs.Lines.{nodes_lent, entry, entries_in};
ghost use Rattle.sgf_game.specs.Turns.{said_by, turn_of, turns_in, turns_of};

use super::line::{ends, mover};
use super::values::{spells, trimmed};
use hex_cells::{Colour, Size, read_vertex};
use hex_game::Move;
use sgf_tree::{Node, SgfText};
use std::alloc::{AllocError, Global};

/// What the text of a move says.
#[derive(Clone, Copy)]
pub enum MoveMeaning {
    Plays(Move),
    /// `resign` or `forfeit`: the line ends, without a step.
    Ends,
}

/// A move of a record.
#[derive(Clone, Copy)]
pub struct Turn {
    pub colour: Colour,
    /// `None` if the text is no move, or if the move is not alone in its node.
    pub said: Option<MoveMeaning>,
}

/// What a move's text says on a board of this size.
fn said_by(text: &[u8], size: Size) -> Option<MoveMeaning>
    ensures { result ≡ said_by size text.now }
{
    if spells(text, b"swap-pieces") {
        return Some(MoveMeaning::Plays(Move::Swap));
    }
    if ends(text) {
        return Some(MoveMeaning::Ends);
    }
    match read_vertex(text, size) {
        Some(cell) => Some(MoveMeaning::Plays(Move::Stone(cell))),
        None => None,
    }
}

/// Whether the node has exactly one move.
fn has_one_move(node: &Node) -> bool
    ensures { result ≡ (length (entries_in node.now) == 1) }
{
    let mut found = false;
    for prop in node.props.as_slice() {
        if mover(prop).is_some() {
            match prop.values.as_slice() {
                [] => {}
                [_] if !found => found = true,
                _ => return false,
            }
        }
    }
    found
}

/// Adds a turn for each value; if they are not alone in their node, it says nothing.
fn push_values(
    turns: &mut Vec<Turn>,
    colour: Colour,
    values: &[SgfText],
    size: Size,
    alone: bool,
) -> Result<(), AllocError>
    ensures { OnOk result (turns.new.items
        ≡ turns.old.items ++ map (turn_of size alone) (map (entry colour) values.now)) }
{
    for value in values {
        let said = if alone {
            said_by(trimmed(value), size)
        } else {
            None
        };
        turns.push(Turn { colour, said })?;
    }
    Ok(())
}

/// Adds a turn for each move of the node.
fn push_node(turns: &mut Vec<Turn>, node: &Node, size: Size) -> Result<(), AllocError>
    ensures { OnOk result (turns.new.items ≡ turns.old.items ++ turns_in size node.now) }
{
    let alone = has_one_move(node);
    for prop in node.props.as_slice() {
        if let Some(colour) = mover(prop) {
            push_values(turns, colour, prop.values.as_slice(), size, alone)?;
        }
    }
    Ok(())
}

/// The turns of a line, one for each move.
pub fn turns_of(alloc: Global, line: &[&Node], size: Size) -> Result<Vec<Turn>, AllocError>
    ensures { IfOk result (λ turns. turns.items ≡ turns_of size (nodes_lent line.now)) }
{
    let mut turns = Vec::new(alloc);
    for node in line {
        push_node(&mut turns, node, size)?;
    }
    Ok(turns)
}
