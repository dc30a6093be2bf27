//! Writing: the record of a game.

ghost use Rattle.std.specs.Prelude.{◌≡◌, ◌<◌, ◌≤◌, ◌++◌, ◌∷◌, [], IfOk, OnOk, Ok};
ghost use Rattle.hex_board.specs.Positions.{Within};
ghost use Rattle.sgf_tree.specs.Trees.{depth};
ghost use Rattle.sgf_tree.specs.Printing.{HasText, max_depth};
ghost use Rattle.sgf_game.specs.GameOf.{game_of};
ghost use Rattle.hex_cells.specs.Vertices.{vertices_of};
ghost use Rattle.sgf_game.specs.Record.{prop_of, prop_if, root_of, node_of_step};
ghost use Rattle.sgf_game.specs.Record.{record_of};
ghost use Rattle.sgf_game.specs.Playing.{IsMoveOn};

use hex_board::Board;
use hex_cells::{CellSet, Colour, DECIMAL_LEN, Size, VERTEX_LEN, write_decimal, write_vertex};
use hex_game::{Game, Move, Step};
use sgf_tree::{Collection, Memory, Node, Nodes, Prop, Props, SgfText, Tree, Trees, Values};
use std::alloc::{AllocError, Global};

/// The record of a game: one tree without kids. Its root has `FF[4]`, `GM[11]`, SZ with the size,
/// and AB and AW with the start stones of Black and of White, cells in rising order, each only if
/// there are such stones. A node follows for each step, with B or W and the vertex in lower case,
/// or `swap-pieces`. It refuses only if memory runs out.
pub fn from_game(alloc: Global, game: &Game) -> Result<Collection, Memory>
    ensures record_is { IfOk result (λ c. c.trees ≡ record_of game.now) }
    // Its game is the game.
    ensures same { IfOk result (λ c. game_of c.trees ≡ Ok game.now) }
    // So it may be printed.
    ensures text { IfOk result (λ c. HasText c.trees) }
    ensures shallow { IfOk result (λ c. depth c.trees ≤ max_depth) }
{
    record_is_read_back(game);
    match record_of(alloc, game) {
        Ok(collection) => Ok(collection),
        Err(_) => Err(Memory),
    }
}

/// A law of each game: the game of its record is the game. It does nothing.
fn record_is_read_back(game: &Game)
    ensures { game_of (record_of game.now) ≡ Ok game.now }
{
    let start = game.start();
    start.keeps();
    game.steps_are_legal();
}

/// The record of a game, or that memory ran out.
fn record_of(alloc: Global, game: &Game) -> Result<Collection, AllocError>
    ensures { IfOk result (λ c. c.trees ≡ record_of game.now) }
{
    // Legal steps put their stones on the board.
    game.steps_are_legal();
    let size = game.start().size();
    let mut nodes = Vec::new(alloc);
    nodes.push(root_of(alloc, game.start())?)?;
    for step in game.steps() {
        nodes.push(node_of(alloc, step, size)?)?;
    }
    let tree = Tree {
        nodes: Nodes::of(nodes),
        kids: Trees::of(Vec::new(alloc)),
    };
    let mut trees = Vec::new(alloc);
    trees.push(tree)?;
    Ok(Collection {
        trees: Trees::of(trees),
    })
}

/// The root: FF, GM and SZ, and then AB and AW if there are such start stones.
fn root_of(alloc: Global, start: &Board) -> Result<Node, AllocError>
    ensures { IfOk result (λ node. node ≡ root_of start.now) }
{
    let size = start.size();
    let mut digits = [0; DECIMAL_LEN];
    let length = write_decimal(size.get(), &mut digits);
    let mut props = Vec::new(alloc);
    props.push(prop_of(alloc, b"FF", b"4")?)?;
    props.push(prop_of(alloc, b"GM", b"11")?)?;
    props.push(prop_of(alloc, b"SZ", &digits[..length])?)?;
    push_stones(alloc, &mut props, b"AB", start.stones(Colour::Black), size)?;
    push_stones(alloc, &mut props, b"AW", start.stones(Colour::White), size)?;
    Ok(Node {
        props: Props::of(props),
    })
}

/// The node of a step: B or W with its one move.
fn node_of(alloc: Global, step: &Step, size: Size) -> Result<Node, AllocError>
    requires { IsMoveOn size step.now.what }
    ensures { IfOk result (λ node. node ≡ node_of_step size step.now) }
{
    let name: &[u8] = match step.colour {
        Colour::Black => b"B",
        Colour::White => b"W",
    };
    let prop = match step.what {
        Move::Swap => prop_of(alloc, name, b"swap-pieces")?,
        Move::Stone(cell) => {
            let mut vertex = [0; VERTEX_LEN];
            let length = write_vertex(cell, size, &mut vertex);
            prop_of(alloc, name, &vertex[..length])?
        }
    };
    let mut props = Vec::new(alloc);
    props.push(prop)?;
    Ok(Node {
        props: Props::of(props),
    })
}

/// A property of one value.
fn prop_of(alloc: Global, name: &[u8], value: &[u8]) -> Result<Prop, AllocError>
    ensures { IfOk result (λ prop. prop ≡ prop_of name.now (value.now ∷ [])) }
{
    let mut values = Vec::new(alloc);
    values.push(SgfText::of(value.to_vec(alloc)?))?;
    Ok(Prop {
        name: SgfText::of(name.to_vec(alloc)?),
        values: Values::of(values),
    })
}

/// The property of these stones, if there are any.
fn push_stones(
    alloc: Global,
    props: &mut Vec<Prop>,
    name: &[u8],
    stones: CellSet,
    size: Size,
) -> Result<(), AllocError>
    requires { Within size stones }
    ensures { OnOk result
        (props.new.items ≡ props.old.items ++ prop_if name.now (vertices_of size stones)) }
{
    let values = vertices(alloc, stones, size)?;
    if !values.is_empty() {
        props.push(Prop {
            name: SgfText::of(name.to_vec(alloc)?),
            values: Values::of(values),
        })?;
    }
    Ok(())
}

/// The vertices of the cells, in rising order.
fn vertices(alloc: Global, stones: CellSet, size: Size) -> Result<Vec<SgfText>, AllocError>
    requires { Within size stones }
    ensures { IfOk result (λ values. values.items ≡ vertices_of size stones) }
{
    let mut values = Vec::new(alloc);
    let mut rest = stones;
    while let Some(cell) = rest.least() {
        let mut vertex = [0; VERTEX_LEN];
        let length = write_vertex(cell, size, &mut vertex);
        values.push(SgfText::of(vertex[..length].to_vec(alloc)?))?;
        rest = rest.without(cell);
    }
    Ok(values)
}
