//! The new walkers of a simulation.

ghost use Rattle.std.specs.Prelude.{IfOk};
ghost use Rattle.sim_run.specs.BetweenSteps.{AreNew};

use std::alloc::Global;
use tree_words::{Memory, Shape};
use walker::Walker;

/// New walkers, one for each worker.
pub(crate) fn new_walkers(alloc: Global, shape: &Shape) -> Result<Vec<Walker>, Memory>
    ensures { IfOk result (λ walkers. AreNew shape.now walkers.items) }
{
    let workers = shape.knobs().workers as usize;
    let Ok(mut walkers) = Vec::with_capacity(alloc, workers) else {
        return Err(Memory);
    };
    'workers: for _ in 0..workers {
        walkers.push_reserved(Walker::new(shape));
    }
    Ok(walkers)
}
