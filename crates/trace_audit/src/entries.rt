//! The blocks that the links of nodes name, entered in the table.

ghost use Rattle.std.specs.Prelude.{◌≡◌, ◌<◌, IfOk};
ghost use Rattle.trace_audit.specs.declared.index.TheConstants.{NUMBERS};
ghost use Rattle.trace_audit.specs.Scans.{FollowsLink, FollowsLinks, HasNextNode, IsFoundLast};

use super::index::NUMBERS;
use super::refusals::Memory;
use super::sites::{Site, Table};
use super::word_list::Words;
use hex_cells::Cell;
use tree_words::cell_of;
use tree_words::layout::{HEADER_WORDS, LINK_WORD, NODE_WORDS};

// How many sites there are, as the index holds it. Before a number is too large for it, memory runs
// out.
fn number_of(sites: usize) -> Result<u32, Memory>
    ensures value { IfOk result (λ number. number ≡ sites) }
    ensures range { IfOk result (λ number. number < NUMBERS) }
{
    if sites >= NUMBERS as usize {
        return Err(Memory);
    }
    Ok(sites as u32)
}

/// Enters the block that the link of the node at `x` names, if it names one. It begins at `free` or
/// behind it, and says that its parent is the node. Answers whether all is so.
pub(crate) fn enter(
    words: &Words,
    table: &mut Table,
    x: usize,
    free: usize,
    site: Site,
) -> Result<bool, Memory>
    requires { HasNextNode words.now table.old x free }
    ensures { IfOk result (λ ok. FollowsLink words.now table.old table.new x free site ok) }
{
    let link = words.at(x + LINK_WORD);
    if link == 0 {
        return Ok(true);
    }
    let start = link as usize;
    if start < free {
        return Ok(false);
    }
    if words.len() <= start {
        return Ok(false);
    }
    if words.at(start) != x as u64 {
        return Ok(false);
    }
    let Ok(()) = table.sites.push(Site { start, ..site }) else {
        return Err(Memory);
    };
    let number = number_of(table.sites.len())?;
    Ok(table.index.enter(start, number))
}

/// Enters the blocks below the nodes of the block at `at`, which ends at `end`.
pub(crate) fn enter_all(
    words: &Words,
    table: &mut Table,
    at: usize,
    end: usize,
) -> Result<bool, Memory>
    requires { IsFoundLast words.now table.old at end }
    ensures { IfOk result (λ ok. FollowsLinks words.now table.old table.new at end ok) }
{
    let site = table.sites[table.index.entry(at) as usize - 1];
    let mut x = at + HEADER_WORDS;
    'nodes: while x < end {
        let after = site.after(Cell::numbered(cell_of(words.at(x))));
        if !enter(words, table, x, end, after)? {
            return Ok(false);
        }
        x += NODE_WORDS;
    }
    Ok(true)
}
