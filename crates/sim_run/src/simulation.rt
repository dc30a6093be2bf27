//! A simulation: the words of a tree, and a walker for each worker.

use super::steps::apply;
use super::walkers::new_walkers;
use std::alloc::Global;
use tree_words::{Closed, Memory, Op, Shape, make_opening};
use walker::Walker;

/// The words of a tree, and a walker for each worker of its shape.
#[derive(Drop)]
pub(crate) struct Simulation {
    pub(crate) shape: Shape,
    pub(crate) words: Vec<u64>,
    pub(crate) walkers: Vec<Walker>,
}

impl Simulation {
    ghost use Rattle.std.specs.Prelude.{◌≡◌, ◌<◌, IfOk, IfSome, false, length, true};
    ghost use Rattle.std.specs.List.{All};
    ghost use Rattle.tree_words.specs.Opening.{opening_words};
    ghost use Rattle.sim_run.specs.BetweenSteps.{IsUnderway, AreNew, AreFinished, HasFewer};
    ghost use Rattle.sim_run.specs.Steps.{StepsAlong, StepsOnce, StepsRound, StepsRounds, data_of};

    /// The simulation at its beginning: the opening words, and new walkers. It takes all memory.
    pub(crate) fn make(alloc: Global, shape: &Shape) -> Result<Simulation, Memory>
        ensures shape { IfOk result (λ run. run.shape ≡ shape.now) }
        ensures words { IfOk result (λ run. run.words.items ≡ opening_words shape.now) }
        ensures walkers { IfOk result (λ run. AreNew shape.now run.walkers.items) }
        ensures underway { IfOk result IsUnderway }
    {
        shape.keeps();
        let words = make_opening(alloc, shape)?;
        let walkers = new_walkers(alloc, shape)?;
        Ok(Simulation {
            shape: *shape,
            words,
            walkers,
        })
    }

    /// The next step of the walker `id` and what it was answered, unless that walker is done.
    pub(crate) fn step(&mut self, id: usize) -> Option<(Op, u64)>
        requires id { id < length self.old.walkers.items }
        requires underway { IsUnderway self.old }
        ensures underway { IsUnderway self.new }
        ensures shape { self.new.shape ≡ self.old.shape }
        ensures count { length self.new.walkers.items ≡ length self.old.walkers.items }
        ensures step { StepsOnce (data_of self.old) id result (data_of self.new) }
        ensures fewer { IfSome result (λ _. HasFewer self.old self.new) }
    {
        let op = self.walkers[id].op();
        if op == Op::Done {
            return None;
        }
        let answer = apply(&mut self.words, op);
        self.walkers[id].got(answer);
        Some((op, answer))
    }

    /// The steps of a schedule, whose numbers are all below the number of workers.
    pub(crate) fn follow(&mut self, schedule: &[u8])
        requires ids { All (λ id. id < length self.old.walkers.items) schedule.now }
        requires underway { IsUnderway self.old }
        ensures underway { IsUnderway self.new }
        ensures shape { self.new.shape ≡ self.old.shape }
        ensures count { length self.new.walkers.items ≡ length self.old.walkers.items }
        ensures along { StepsAlong (data_of self.old) schedule.now (data_of self.new) }
    {
        'entries: for &id in schedule {
            self.step(usize::from(id));
        }
    }

    // One step of each walker that is not done, by rising number: whether there was one.
    fn round(&mut self) -> bool
        requires underway { IsUnderway self.old }
        ensures underway { IsUnderway self.new }
        ensures shape { self.new.shape ≡ self.old.shape }
        ensures count { length self.new.walkers.items ≡ length self.old.walkers.items }
        ensures round { StepsRound (data_of self.old) (data_of self.new) }
        ensures some { result ≡ true → HasFewer self.old self.new }
        ensures none { result ≡ false → AreFinished self.new.walkers.items }
    {
        let mut stepped = false;
        'walkers: for id in 0..self.walkers.len() {
            if self.step(id).is_some() {
                stepped = true;
            }
        }
        stepped
    }

    /// Steps in turn until all walkers are done.
    pub(crate) fn finish(&mut self)
        requires underway { IsUnderway self.old }
        ensures underway { IsUnderway self.new }
        ensures shape { self.new.shape ≡ self.old.shape }
        ensures rounds { StepsRounds (data_of self.old) (data_of self.new) }
        ensures finished { AreFinished self.new.walkers.items }
    {
        'rounds: loop {
            if !self.round() {
                return;
            }
        }
    }

    /// The closed tree, if all walkers are done.
    pub(crate) fn close(self) -> Closed
        requires underway { IsUnderway self }
        requires finished { AreFinished self.walkers.items }
        ensures shape { result.shape ≡ self.shape }
        ensures words { result.words ≡ self.words.items }
    {
        let Simulation {
            shape,
            words,
            walkers: _,
        } = self;
        Closed::of(shape, words)
    }
}
