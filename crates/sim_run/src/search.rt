//! The search by a schedule.

ghost use Rattle.std.specs.Prelude.{◌≡◌, ◌↔◌, ℕ, IfOk, Err, Some};
ghost use Rattle.sim_run.specs.Schedules.{first_stray};
ghost use Rattle.sim_run.specs.BetweenSteps.{EndsSchedule};
ghost use Rattle.sim_run.specs.declared.errors.SimError.{SimError};

use super::errors::SimError;
use super::simulation::Simulation;
use std::alloc::Global;
use tree_words::{Closed, Shape};

// The first place of the schedule whose number no worker has.
fn find_stray(shape: &Shape, schedule: &[u8]) -> Option<usize>
    ensures { result ≡ first_stray shape.now schedule.now }
{
    let workers = shape.knobs().workers;
    schedule.iter().position(|&id| workers <= u32::from(id))
}

/// The closed tree that the workers of the shape make, when each entry of the schedule is one step
/// of the worker with that number, and afterwards they step in turn, by rising number, until all
/// are done. The entries of a worker that is done are passed over.
///
/// `NoSuchWalker` comes exactly if the schedule has a number that is no worker's, with its first
/// place, before memory is taken. All memory is taken before the first step.
pub fn simulate(alloc: Global, shape: &Shape, schedule: &[u8]) -> Result<Closed, SimError>
    ensures shape { IfOk result (λ closed. closed.shape ≡ shape.now) }
    ensures schedule { IfOk result (λ closed. EndsSchedule shape.now schedule.now closed.words) }
    ensures no_walker { (at : ℕ) → (result ≡ Err (SimError.NoSuchWalker at))
        ↔ (first_stray shape.now schedule.now ≡ Some at) }
{
    if let Some(at) = find_stray(shape, schedule) {
        return Err(SimError::NoSuchWalker { at });
    }
    let mut run = Simulation::make(alloc, shape)?;
    run.follow(schedule);
    run.finish();
    Ok(run.close())
}
