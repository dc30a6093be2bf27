//! The opening words.

ghost use Rattle.std.specs.Prelude.{◌≡◌, IfOk, replicate};
ghost use Rattle.tree_words.specs.Words.{end_of};
ghost use Rattle.tree_words.specs.Opening.{AreOpening, opening_words};

use super::layout::{HEADER_WORDS, LINK_WORD, NEXT_AT, NODE_WORDS};
use super::roots::Memory;
use super::shapes::Shape;
use super::writing::write_block;
use std::alloc::Global;

// Writes the opening words of the shape over words that are 0.
fn write_opening(words: &mut [u64], shape: &Shape)
    requires { words.old ≡ replicate (end_of shape.now) 0 }
    ensures opening { AreOpening shape.now words.new }
    ensures told { words.new ≡ opening_words shape.now }
{
    let root = shape.root() as usize;
    let start = root + NODE_WORDS;
    let board = shape.board();
    let count = write_block(
        words,
        start,
        root,
        board.empties(),
        shape.allowed(),
        board.size(),
    );
    words[root + LINK_WORD] = start as u64;
    words[NEXT_AT] = (start + HEADER_WORDS + NODE_WORDS * count) as u64;
}

/// The opening words of the shape. One allocation has them all.
pub fn make_opening(alloc: Global, shape: &Shape) -> Result<Vec<u64>, Memory>
    ensures { IfOk result (λ words. words.items ≡ opening_words shape.now) }
{
    let Ok(mut words) = vec![in alloc; 0; shape.total() as usize] else {
        return Err(Memory);
    };
    write_opening(&mut words, shape);
    Ok(words)
}
