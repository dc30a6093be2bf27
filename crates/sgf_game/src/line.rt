//! The main line of a collection.

ghost use Rattle.std.specs.Prelude.{◌≡◌, IfOk, map};
ghost use Rattle.hex_cells.specs.declared.colours.Colour.{Colour};
ghost use Rattle.sgf_game.specs.Lines.{nodes_lent, mover, ends, entry, has_end, is_last, line_of};

use super::values::{is_named, spells, trimmed};
use hex_cells::Colour;
use sgf_tree::{Collection, Node, Prop, SgfText};
use std::alloc::{AllocError, Global};

/// The player whose moves a property holds.
pub fn mover(prop: &Prop) -> Option<Colour>
    ensures { result ≡ mover prop.now.name }
{
    if is_named(prop, b"B") {
        Some(Colour::Black)
    } else if is_named(prop, b"W") {
        Some(Colour::White)
    } else {
        None
    }
}

/// Whether a move of this text ends the line without a step.
pub fn ends(text: &[u8]) -> bool
    ensures { result ≡ ends text.now }
{
    spells(text, b"resign") || spells(text, b"forfeit")
}

/// Whether one of the values of B or W ends the line.
fn holds_end(values: &[SgfText]) -> bool
    ensures { (colour : Colour) → result ≡ has_end (map (entry colour) values.now) }
{
    for value in values {
        if ends(trimmed(value)) {
            return true;
        }
    }
    false
}

/// Whether a move in the node ends the line.
#[tactic(auto, using(crate::proofs::Lists::any_append))]
fn is_last(node: &Node) -> bool
    ensures { result ≡ is_last node.now }
{
    for prop in node.props.as_slice() {
        if mover(prop).is_some() && holds_end(prop.values.as_slice()) {
            return true;
        }
    }
    false
}

/// The nodes of the first tree, then those of the first of its kids, and so on, up to the first
/// that ends the line, with that one.
pub fn line_of(alloc: Global, collection: &Collection) -> Result<Vec<&Node>, AllocError>
    ensures { IfOk result (λ line. nodes_lent line.items ≡ line_of collection.now.trees) }
{
    let mut line = Vec::new(alloc);
    let mut trees = collection.trees.as_slice();
    while let [tree, ..] = trees {
        for node in tree.nodes.as_slice() {
            line.push(node)?;
            if is_last(node) {
                return Ok(line);
            }
        }
        trees = tree.kids.as_slice();
    }
    Ok(line)
}
