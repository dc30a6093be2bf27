//! The program `hexmatch`: [`match_ref::run_match`] over the standard streams of the process.
//!
//! **What it is.** The arguments of the process, standard output for the text, standard error for
//! the one line of a failure, and the status as the exit code. Nothing is read.
//!
//! **A caller** is the shell: `hexmatch --size 7 --games 20 --playouts-b 4000`.
//!
//! **What is proved.** That it is safe and ends whenever its games do. What it answers is proved of
//! [`match_ref::run_match`].
//!
//! **What is only tested, or not said.** What the terminal or another program got.
//!
//! **Limits.** An argument that is no text ends it with status 2.
#![tactic(auto)]

use hex_devices::{arguments_of, grow_stack, hold_streams};
use hex_io::{ErrLink, StdLink, Word, report};
use match_ref::run_match;
use search_team::OpenGate;
use std::process::ExitCode;
use std::thread::Threads;

fn main(rt: HostRuntime) -> ExitCode {
    let _held = hold_streams(&rt);
    grow_stack(&rt);
    let mut errors = ErrLink::new(&rt);
    let status = match arguments_of(&rt) {
        Ok(words) => run_with(&rt, &rt, &words, &mut errors),
        Err(end) => {
            report(&mut errors, end.line());
            end.status()
        }
    };
    ExitCode::from(status)
}

/// A run over the standard streams. Games run in threads of `threads`, which is the runtime again:
/// it starts threads only for who takes it as such.
fn run_with<R: Threads + Sync>(
    rt: &HostRuntime,
    threads: &R,
    words: &[Word],
    errors: &mut ErrLink,
) -> u8 {
    let mut link = StdLink::new(rt);
    run_match(threads, rt.alloc(), words, &mut link, errors, &OpenGate)
}
