//! The command of hexd: its options, in the order of the manual.

ghost use Rattle.std.specs.Prelude.{◌≡◌, IfOk};
ghost use Rattle.clap.specs.Words.{app_of};
ghost use Rattle.hexd_args.specs.Table.{hexd_app};

use crate::table::{
    BEST, BUDGET, EXPAND, HSEARCH, LOOK, PLAYOUTS, SEED, SIZE, SOLVE, STEPS, TRACE, WEIGHT, WORDS,
    WORKERS,
};
use clap::Command;
use option_words::command_with;
use std::alloc::{AllocError, Global};

/// The command: one positional word, which is required, and the options.
#[tactic(auto, unfolding(crate::specs::Table::hexd_app))]
pub fn command<'a>(alloc: Global) -> Result<Command<'a>, AllocError>
    ensures { IfOk result (λ c. app_of c ≡ hexd_app) }
{
    let options = [
        (SIZE.0, Some(SIZE.1)),
        (WORKERS.0, Some(WORKERS.1)),
        (PLAYOUTS.0, Some(PLAYOUTS.1)),
        (SEED.0, Some(SEED.1)),
        (WORDS.0, Some(WORDS.1)),
        (EXPAND.0, Some(EXPAND.1)),
        (WEIGHT.0, Some(WEIGHT.1)),
        (HSEARCH.0, Some(HSEARCH.1)),
        (SOLVE.0, Some(SOLVE.1)),
        (LOOK.0, Some(LOOK.1)),
        (STEPS.0, Some(STEPS.1)),
        (BUDGET.0, Some(BUDGET.1)),
        (BEST.0, Some(BEST.1)),
        (TRACE, None),
    ];
    command_with(alloc, true, &options)
}
