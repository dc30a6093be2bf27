//! The schedule of mode sim.

ghost use Rattle.std.specs.Prelude.{◌≡◌, ◌<◌, ◌≤◌, IfOk, All};
ghost use Rattle.tree_words.specs.declared.settings.TheConstants.{MOST_WORKERS};
ghost use Rattle.turn_modes.specs.Schedules.{schedule_of, worker_of};

use rand_core::{Rng, SeedableRng};
use rand_xoshiro::Xoshiro256PlusPlus;
use std::alloc::{AllocError, Global};

// The worker that a word gives, among so many.
fn worker_of(word: u64, workers: u32) -> u8
    requires some { 0 < workers }
    requires few { workers ≤ MOST_WORKERS }
    ensures value { result ≡ worker_of workers word }
    ensures below { result < workers }
{
    (u128::from(word) * u128::from(workers) >> u64::BITS) as u8
}

/// A schedule of so many steps for so many workers: a worker for each of the first words of the
/// generator that is made from the seed.
pub fn schedule(alloc: Global, workers: u32, seed: u64, steps: u32) -> Result<Vec<u8>, AllocError>
    requires some { 0 < workers }
    requires few { workers ≤ MOST_WORKERS }
    ensures value { IfOk result (λ list. list.items ≡ schedule_of workers seed steps) }
    ensures below { IfOk result (λ list. All (λ worker. worker < workers) list.items) }
{
    let mut generator = Xoshiro256PlusPlus::seed_from_u64(seed);
    let mut list = Vec::with_capacity(alloc, steps as usize)?;
    'steps: while list.len() < steps as usize {
        list.push(worker_of(generator.next_u64(), workers))?;
    }
    Ok(list)
}
