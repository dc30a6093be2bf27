//! Parsing: the collection of a text, or where it stops being one.

ghost use Rattle.std.specs.Prelude.{◌≡◌, ◌≤◌, ℕ, IfOk, Ok, Err};
ghost use Rattle.sgf_tree.specs.Trees.{GameTrees, depth};
ghost use Rattle.sgf_tree.specs.Grammar.{Text};
ghost use Rattle.sgf_tree.specs.Printing.{HasText, max_depth};
ghost use Rattle.sgf_tree.specs.Places.{IsTooDeep, IsRefusedAt};
ghost use Rattle.sgf_tree.specs.Verdict.{OrMemory, Finds};

use crate::error::SgfError;
use crate::reading::{Reading, ReadingEnd};
use crate::trees::Collection;
use std::alloc::Global;

/// Parses SGF text: the collection that the bytes are a text of, if its trees nest at most 64
/// deep. `TooDeep` comes exactly if 65 trees are open at a place of the longest prefix that some
/// collection's text begins with; a parenthesis inside a value opens none. Otherwise `NotSgf` comes
/// exactly if the bytes are no collection's text, and `at` is the length of that prefix. `Memory`
/// may come in place of any answer.
///
/// The grammar is that of SGF FF[4], with values kept byte for byte.
pub fn parse(alloc: Global, bytes: &[u8]) -> Result<Collection, SgfError>
    // What is read is in the grammar, and what is in the grammar is read.
    ensures ok { IfOk result (λ c. Text c.trees bytes.now × (depth c.trees ≤ max_depth)) }
    ensures printable { IfOk result (λ c. HasText c.trees) }
    ensures text { (trees : GameTrees) → Text trees bytes.now → depth trees ≤ max_depth
        → OrMemory result (Ok record { trees = trees }) }

    ensures too_deep { result ≡ Err SgfError.TooDeep → IsTooDeep bytes.now }
    ensures deep { IsTooDeep bytes.now → OrMemory result (Err SgfError.TooDeep) }

    ensures not_sgf { (at : ℕ) → result ≡ Err (SgfError.NotSgf at) → IsRefusedAt bytes.now at }
    ensures refused { (at : ℕ) → IsRefusedAt bytes.now at
        → OrMemory result (Err (SgfError.NotSgf at)) }
{
    let reading = read_all(alloc, bytes)?;
    match reading.finish() {
        Some(collection) => Ok(collection),
        None => Err(SgfError::NotSgf { at: bytes.len() }),
    }
}

/// Reads all bytes, or up to one that is refused.
fn read_all(alloc: Global, bytes: &[u8]) -> Result<Reading, SgfError>
    ensures { Finds bytes.now result }
{
    let mut reading = Reading::new(alloc);
    for (at, byte) in bytes.iter().enumerate() {
        match reading.read(*byte) {
            Ok(()) => {}
            Err(ReadingEnd::Refused) => return Err(SgfError::NotSgf { at }),
            Err(ReadingEnd::TooDeep) => return Err(SgfError::TooDeep),
            Err(ReadingEnd::Memory) => return Err(SgfError::Memory),
        }
    }
    Ok(reading)
}
