//! The blocks that the links show, from the root on.

ghost use Rattle.std.specs.Prelude.{◌≡◌, ◌<◌, ◌≤◌, IfOk, MatchOption, length, slice_index};
ghost use Rattle.tree_words.specs.Words.{end_of, root_at};
ghost use Rattle.trace_audit.specs.Scans.{IsLinkTable, IsScanBegun, IsScanned, PassesBlock};
ghost use Rattle.trace_audit.specs.Tables.{AreUnlinked};

use super::blocks::block_end;
use super::entries::{enter, enter_all};
use super::index::Index;
use super::refusals::Memory;
use super::sites::{Site, Table, has_entry};
use super::word_list::Words;
use std::alloc::Global;
use tree_words::Shape;
use tree_words::layout::NODE_WORDS;

// The words of a block below this parent, if it is not the root's.
fn other_words(shape: &Shape, parent: usize, size: usize) -> usize
    ensures root { parent ≡ root_at shape.now → result ≡ 0 }
    ensures other { (parent ≡ root_at shape.now → ⊥) → result ≡ size }
    ensures range { result ≤ size }
{
    if parent == shape.root() as usize {
        0
    } else {
        size
    }
}

// Passes the block that was entered at `at`: the word after it, if it stands there alone.
fn pass_block(
    words: &Words,
    shape: &Shape,
    table: &mut Table,
    at: usize,
) -> Result<Option<usize>, Memory>
    requires long { length words.now ≡ end_of shape.now }
    requires at { at < length words.now }
    requires entry { 0 < slice_index table.old.index at }
    requires scanned { IsScanned shape.now words.now table.old at }
    ensures { IfOk result
        (λ to. PassesBlock shape.now words.now table.old table.new at to) }
{
    shape.keeps();
    let site = table.sites[table.index.entry(at) as usize - 1];
    let parent = words.at(at) as usize;
    let Some(end) = block_end(words, shape, at, parent, &site.board) else {
        return Ok(None);
    };
    if has_entry(&table.index, at + 1, end) {
        return Ok(None);
    }
    table.others += other_words(shape, parent, end - at);
    if enter_all(words, table, at, end)? {
        Ok(Some(end))
    } else {
        Ok(None)
    }
}

// The table of the root's link alone.
fn begin(alloc: Global, shape: &Shape, words: &Words) -> Result<Option<Table>, Memory>
    requires { length words.now ≡ end_of shape.now }
    ensures { IfOk result (λ table. MatchOption table (AreUnlinked shape.now words.now)
        (IsScanBegun shape.now words.now)) }
{
    shape.keeps();
    let mut table = Table {
        index: Index::empty(alloc, words.len())?,
        sites: Vec::new(alloc),
        others: 0,
    };
    let root = shape.root() as usize;
    let site = Site {
        start: 0,
        board: *shape.board(),
        player: shape.colour(),
    };
    if enter(words, &mut table, root, root + NODE_WORDS, site)? {
        Ok(Some(table))
    } else {
        Ok(None)
    }
}

/// The linked blocks, if there are such.
pub(crate) fn link(alloc: Global, shape: &Shape, words: &Words) -> Result<Option<Table>, Memory>
    requires { length words.now ≡ end_of shape.now }
    ensures { IfOk result (λ table. MatchOption table (AreUnlinked shape.now words.now)
        (IsLinkTable shape.now words.now)) }
{
    shape.keeps();
    let Some(mut table) = begin(alloc, shape, words)? else {
        return Ok(None);
    };
    let mut at = shape.area() as usize;
    'words: while at < words.len() {
        if table.index.entry(at) == 0 {
            at += 1;
        } else {
            let Some(end) = pass_block(words, shape, &mut table, at)? else {
                return Ok(None);
            };
            at = end;
        }
    }
    Ok(Some(table))
}
