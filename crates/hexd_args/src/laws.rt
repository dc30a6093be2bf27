//! A law of the table of options: each line of it, as the manual has it.
//!
//! The definitions of a command line name the constants of the table, so a wrong line of it would
//! make a wrong definition. So here the manual's numbers stand bare on purpose, and no limit by its
//! name: of a name the law would hold whatever its number.

ghost use Rattle.std.specs.Prelude.{◌≡◌, codes};

use crate::table::{
    BEST, BUDGET, EXPAND, HSEARCH, LOOK, PLAYOUTS, SEED, SIZE, SOLVE, STEPS, TRACE, WEIGHT, WORDS,
    WORKERS,
};

/// A law, with nothing to run: each option has this name, this default, and this range.
pub fn options_are_those_of_the_manual()
    ensures size { (SIZE.0.now ≡ codes "size") × (SIZE.1.now ≡ codes "11") }
    ensures size_range { (SIZE.2 ≡ 1) × (SIZE.3 ≡ 11) }
    ensures workers { (WORKERS.0.now ≡ codes "workers") × (WORKERS.1.now ≡ codes "1") }
    ensures workers_range { (WORKERS.2 ≡ 1) × (WORKERS.3 ≡ 64) }
    ensures playouts { (PLAYOUTS.0.now ≡ codes "playouts") × (PLAYOUTS.1.now ≡ codes "10000") }
    ensures playouts_range { (PLAYOUTS.2 ≡ 1) × (PLAYOUTS.3 ≡ 1000000) }
    ensures seed { (SEED.0.now ≡ codes "seed") × (SEED.1.now ≡ codes "0") }
    ensures seed_range { (SEED.2 ≡ 0) × (SEED.3 ≡ 18446744073709551615) }
    ensures words { (WORDS.0.now ≡ codes "words") × (WORDS.1.now ≡ codes "4194304") }
    ensures words_range { (WORDS.2 ≡ 1024) × (WORDS.3 ≡ 16777216) }
    ensures expand { (EXPAND.0.now ≡ codes "expand") × (EXPAND.1.now ≡ codes "8") }
    ensures expand_range { (EXPAND.2 ≡ 1) × (EXPAND.3 ≡ 1000) }
    ensures weight { (WEIGHT.0.now ≡ codes "weight") × (WEIGHT.1.now ≡ codes "180") }
    ensures weight_range { (WEIGHT.2 ≡ 0) × (WEIGHT.3 ≡ 1024) }
    ensures hsearch { (HSEARCH.0.now ≡ codes "hsearch") × (HSEARCH.1.now ≡ codes "on") }
    ensures solve { (SOLVE.0.now ≡ codes "solve") × (SOLVE.1.now ≡ codes "0") }
    ensures solve_range { (SOLVE.2 ≡ 0) × (SOLVE.3 ≡ 10000000) }
    ensures look { (LOOK.0.now ≡ codes "look") × (LOOK.1.now ≡ codes "0") }
    ensures look_range { (LOOK.2 ≡ 0) × (LOOK.3 ≡ 1000000) }
    ensures steps { (STEPS.0.now ≡ codes "steps") × (STEPS.1.now ≡ codes "10000") }
    ensures steps_range { (STEPS.2 ≡ 0) × (STEPS.3 ≡ 1000000) }
    ensures budget { (BUDGET.0.now ≡ codes "budget") × (BUDGET.1.now ≡ codes "1000000") }
    ensures budget_range { (BUDGET.2 ≡ 1) × (BUDGET.3 ≡ 18446744073709551615) }
    ensures best { (BEST.0.now ≡ codes "best") × (BEST.1.now ≡ codes "off") }
    ensures trace { TRACE.now ≡ codes "trace" }
{}
