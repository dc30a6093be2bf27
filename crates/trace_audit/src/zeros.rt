//! Words that are 0.

ghost use Rattle.std.specs.Prelude.{◌≡◌, IfOk, replicate};

use super::refusals::Memory;
use std::alloc::Global;

/// So many words that are 0.
pub(crate) fn zeros(alloc: Global, count: usize) -> Result<Vec<u64>, Memory>
    ensures { IfOk result (λ words. words.items ≡ replicate count 0) }
{
    let words = vec![in alloc; 0; count]?;
    Ok(words)
}
