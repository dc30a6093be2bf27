//! The records: each one's leaf and playout, and the sums of what the playouts add.

ghost use Rattle.std.specs.Prelude.{◌≡◌, ◌<◌, IfOk, MatchBool, length};
ghost use Rattle.tree_words.specs.Words.{end_of, winner_in};
ghost use Rattle.play_out.specs.Fills.{filled, playout_of};
ghost use Rattle.trace_audit.specs.Playouts.{AddsPlayout, AddsPlayouts, HasOwnSums, IsBlockOf};
ghost use Rattle.trace_audit.specs.Playouts.{IsLinkedNode, IsSiteOf, IsTableOf};
ghost use Rattle.trace_audit.specs.Scans.{IsLinkTable};
ghost use Rattle.trace_audit.specs.Sums.{IsFullBoard};

use super::gains::gain_leaf;
use super::handing::hand_all;
use super::refusals::Memory;
use super::sites::{Site, Table};
use super::word_list::Words;
use super::zeros::zeros;
use hex_cells::{Cell, Colour};
use play_out::{Ending, fill};
use std::alloc::Global;
use tree_words::layout::{
    COUNT_WORD, HEADER_WORDS, NODE_WORDS, PLACE_UNIT, RECORD_UNIT, RECORDS_AT,
};
use tree_words::{Shape, cell_of};

// The first word of the block that has a node at `leaf`; `None` if there is none.
fn block_of(words: &Words, table: &Table, leaf: u64) -> Option<usize>
    requires { IsTableOf words.now table.now }
    ensures { IsBlockOf words.now table.now leaf result }
{
    if words.len() as u64 <= leaf {
        return None;
    }
    let leaf = leaf as usize;
    let place = (words.at(leaf) / PLACE_UNIT) as usize;
    let before = HEADER_WORDS + NODE_WORDS * place;
    if leaf < before {
        return None;
    }
    let block = leaf - before;
    if table.index.entry(block) == 0 {
        return None;
    }
    if words.at(block + COUNT_WORD) as usize <= place {
        return None;
    }
    Some(block)
}

// The player who won by a record.
fn winner_of(word: u64) -> Colour
    ensures { result ≡ winner_in word }
{
    if word % RECORD_UNIT == 0 {
        Colour::Black
    } else {
        Colour::White
    }
}

// Whether this player won by a record.
fn is_winner(player: Colour, word: u64) -> bool
    ensures { MatchBool result (player ≡ winner_in word) (player ≡ winner_in word → ⊥) }
{
    player == winner_of(word)
}

// The board and the player to move at a node of the block at `block`.
fn site_of(words: &Words, table: &Table, block: usize, node: usize) -> Site
    requires { IsLinkedNode words.now table.now block node }
    ensures { IsSiteOf words.now table.now block node result }
{
    let site = table.sites[table.index.entry(block) as usize - 1];
    site.after(Cell::numbered(cell_of(words.at(node))))
}

// How playout `k` of a search with this seed ends from the site.
fn ending_of(site: &Site, seed: u64, k: u64) -> Ending
    ensures full { result.full ≡ filled site.now.board site.now.player seed k }
    ensures winner { result.winner ≡ playout_of site.now.board site.now.player seed k }
    ensures filled { IsFullBoard site.now.board.size result.full }
{
    let full = fill(&site.board, site.player, seed, k);
    // A board's stones lie apart.
    full.keeps();
    let winner = if full.joined(Colour::Black) {
        Colour::Black
    } else {
        Colour::White
    };
    Ending { full, winner }
}

// Adds playout `k` to the sums of its leaf's block, if its record is right.
fn add(words: &Words, shape: &Shape, table: &Table, sums: &mut [u64], k: u32) -> bool
    requires long { length words.now ≡ end_of shape.now }
    requires number { k < shape.now.knobs.playouts }
    requires sums { HasOwnSums shape.now words.now table.now sums.old k }
    ensures { AddsPlayout shape.now words.now table.now sums.old sums.new k result }
{
    shape.keeps();
    let word = words.at(RECORDS_AT + k as usize);
    let Some(block) = block_of(words, table, word / RECORD_UNIT) else {
        return false;
    };
    let leaf = (word / RECORD_UNIT) as usize;
    let site = site_of(words, table, block, leaf);
    let ending = ending_of(&site, shape.knobs().seed, u64::from(k));
    if !is_winner(ending.winner, word) {
        return false;
    }
    gain_leaf(words, sums, block, leaf, site.player.other(), &ending);
    true
}

/// The sums of what the playouts add, if each has its record.
pub(crate) fn sum(
    alloc: Global,
    shape: &Shape,
    words: &Words,
    table: &Table,
) -> Result<Option<Vec<u64>>, Memory>
    requires long { length words.now ≡ end_of shape.now }
    requires linked { IsLinkTable shape.now words.now table.now }
    ensures { IfOk result (λ sums. AddsPlayouts shape.now words.now table.now sums) }
{
    shape.keeps();
    let mut sums = zeros(alloc, words.len())?;
    'records: for k in 0..shape.knobs().playouts {
        if !add(words, shape, table, &mut sums, k) {
            return Ok(None);
        }
    }
    hand_all(words, shape, table, &mut sums);
    Ok(Some(sums))
}
