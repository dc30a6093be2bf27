//! Printing: the text of a collection without white space between its tokens.

ghost use Rattle.std.specs.Prelude.{◌≡◌, ◌≤◌, ◌++◌, ◌∷◌, [], OnOk, IfOk, flat_map};
ghost use Rattle.sgf_tree.specs.Trees.{depth};
ghost use Rattle.sgf_tree.specs.Grammar.{Text};
ghost use Rattle.sgf_tree.specs.Rows.{row};
ghost use Rattle.sgf_tree.specs.Printing.{byte_print, value_print, prop_print, node_print};
ghost use Rattle.sgf_tree.specs.Printing.{trees_print, HasText, max_depth};

use crate::lists::{Node, Prop, SgfText};
use crate::trees::{Collection, Tree};
use crate::want::Memory;
use std::alloc::{AllocError, Global};

/// Prints a collection: its text without white space between tokens, in which exactly the bytes
/// `]` and backslash of a value have a backslash before them. The recursion goes as deep as the
/// trees nest. It refuses only if memory runs out.
pub fn print(alloc: Global, collection: &Collection) -> Result<SgfText, Memory>
    requires shallow { depth collection.now.trees ≤ max_depth }
    requires text { HasText collection.now.trees }
    ensures printed { IfOk result (λ bytes. bytes ≡ trees_print collection.now.trees) }
    // So `parse` reads it again as the same collection.
    ensures text { IfOk result (λ bytes. Text collection.now.trees bytes) }
{
    let mut out = Vec::new(alloc);
    match push_trees(&mut out, collection.trees.as_slice()) {
        Ok(()) => Ok(SgfText::of(out)),
        Err(_) => Err(Memory),
    }
}

#[cycle(print)]
fn push_trees(out: &mut Vec<u8>, trees: &[Tree]) -> Result<(), AllocError>
    ensures { OnOk result (out.new.items ≡ out.old.items ++ trees_print (row trees.now)) }
{
    for tree in trees {
        push_tree(out, tree)?;
    }
    Ok(())
}

#[cycle(print)]
fn push_tree(out: &mut Vec<u8>, tree: &Tree) -> Result<(), AllocError>
    ensures { OnOk result (out.new.items ≡ out.old.items ++ trees_print (row (tree.now ∷ []))) }
{
    out.push(b'(')?;
    push_nodes(out, tree.nodes.as_slice())?;
    push_trees(out, tree.kids.as_slice())?;
    out.push(b')')?;
    Ok(())
}

fn push_nodes(out: &mut Vec<u8>, nodes: &[Node]) -> Result<(), AllocError>
    ensures { OnOk result (out.new.items ≡ out.old.items ++ flat_map node_print nodes.now) }
{
    for node in nodes {
        out.push(b';')?;
        push_props(out, node.props.as_slice())?;
    }
    Ok(())
}

fn push_props(out: &mut Vec<u8>, props: &[Prop]) -> Result<(), AllocError>
    ensures { OnOk result (out.new.items ≡ out.old.items ++ flat_map prop_print props.now) }
{
    for prop in props {
        out.extend_from_slice(prop.name.as_slice())?;
        push_values(out, prop.values.as_slice())?;
    }
    Ok(())
}

fn push_values(out: &mut Vec<u8>, values: &[SgfText]) -> Result<(), AllocError>
    ensures { OnOk result (out.new.items ≡ out.old.items ++ flat_map value_print values.now) }
{
    for value in values {
        push_value(out, value.as_slice())?;
    }
    Ok(())
}

fn push_value(out: &mut Vec<u8>, value: &[u8]) -> Result<(), AllocError>
    ensures { OnOk result (out.new.items ≡ out.old.items ++ value_print value.now) }
{
    out.push(b'[')?;
    push_content(out, value)?;
    out.push(b']')?;
    Ok(())
}

fn push_content(out: &mut Vec<u8>, value: &[u8]) -> Result<(), AllocError>
    ensures { OnOk result (out.new.items ≡ out.old.items ++ flat_map byte_print value.now) }
{
    for byte in value {
        if *byte == b'\\' || *byte == b']' {
            out.push(b'\\')?;
        }
        out.push(*byte)?;
    }
    Ok(())
}
