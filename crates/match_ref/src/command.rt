//! The command of hexmatch: its options, in the order of the manual.

ghost use Rattle.std.specs.Prelude.{◌≡◌, IfOk};
ghost use Rattle.clap.specs.Words.{app_of};
ghost use Rattle.match_ref.specs.MatchTable.{match_app};

use super::table::{
    EXPAND, GAMES, LOOK, OPENING, PLAYOUTS, RECORDS, SEED, SIZE, SOLVE, THREADS, WEIGHT, WORDS,
};
use clap::Command;
use option_words::command_with;
use std::alloc::{AllocError, Global};

/// The command: the options. A positional word is none of them, and refused when it is read.
#[tactic(auto, unfolding(crate::specs::MatchTable::match_app))]
pub fn command<'a>(alloc: Global) -> Result<Command<'a>, AllocError>
    ensures { IfOk result (λ c. app_of c ≡ match_app) }
{
    let options = [
        (SIZE.0, Some(SIZE.1)),
        (GAMES.0, Some(GAMES.1)),
        (THREADS.0, Some(THREADS.1)),
        (SEED.0, Some(SEED.1)),
        (RECORDS.0, Some(RECORDS.1)),
        (OPENING.0, None),
        (PLAYOUTS.0, Some(PLAYOUTS.2)),
        (PLAYOUTS.1, Some(PLAYOUTS.2)),
        (WORDS.0, Some(WORDS.2)),
        (WORDS.1, Some(WORDS.2)),
        (EXPAND.0, Some(EXPAND.2)),
        (EXPAND.1, Some(EXPAND.2)),
        (WEIGHT.0, Some(WEIGHT.2)),
        (WEIGHT.1, Some(WEIGHT.2)),
        (SOLVE.0, Some(SOLVE.2)),
        (SOLVE.1, Some(SOLVE.2)),
        (LOOK.0, Some(LOOK.2)),
        (LOOK.1, Some(LOOK.2)),
    ];
    command_with(alloc, false, &options)
}
