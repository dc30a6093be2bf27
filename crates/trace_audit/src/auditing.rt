//! The audit of bytes.

ghost use Rattle.std.specs.Prelude.{◌≡◌, ◌≤◌, IfOk, length};
ghost use Rattle.tree_words.specs.Words.{end_of};
ghost use Rattle.trace_audit.specs.Verdicts.{IsFirstFailure, IsVerdictOn};

use super::counts::is_exact;
use super::ends::keeps_ends;
use super::growth::is_grown;
use super::linking::link;
use super::parsing::read_text;
use super::recording::sum;
use super::refusals::Memory;
use super::types::{Audit, Flaw};
use super::word_list::Words;
use std::alloc::Global;
use tree_words::Shape;

/// The most bytes that are audited.
pub const MOST_BYTES: usize = 67_108_864;

// The first point of the closed tree that fails, if one does.
fn first_failure(alloc: Global, shape: &Shape, words: &Words) -> Result<Option<Flaw>, Memory>
    requires { length words.now ≡ end_of shape.now }
    ensures { IfOk result (λ failure. IsFirstFailure shape.now words.now failure) }
{
    shape.keeps();
    let Some(table) = link(alloc, shape, words)? else {
        return Ok(Some(Flaw::Block));
    };
    let Some(sums) = sum(alloc, shape, words, &table)? else {
        return Ok(Some(Flaw::Record));
    };
    if !is_exact(words, shape, &table, &sums) {
        return Ok(Some(Flaw::Count));
    }
    if !keeps_ends(words, shape) {
        return Ok(Some(Flaw::End));
    }
    if !is_grown(words, shape, &table, &sums) {
        return Ok(Some(Flaw::Growth));
    }
    Ok(None)
}

/// Whether the bytes are the texts of closed trees, one after another; else which is the first that
/// is not, and its first flaw.
pub fn audit(alloc: Global, bytes: &[u8]) -> Result<Audit, Memory>
    requires { length bytes.now ≤ MOST_BYTES }
    ensures { IfOk result (λ answer. IsVerdictOn bytes.now answer) }
{
    let mut at = 0;
    let mut tree = 0;
    'texts: while at < bytes.len() {
        let Some(text) = read_text(&bytes[at..]) else {
            return Ok(Audit::No {
                tree,
                why: Flaw::BadForm,
            });
        };
        if let Some(why) = first_failure(alloc, &text.cut, &text.words)? {
            return Ok(Audit::No { tree, why });
        }
        at += text.bytes;
        tree += 1;
    }
    Ok(Audit::Yes { trees: tree })
}
