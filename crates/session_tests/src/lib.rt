//! Tests of the crates of a session and of the words, as a caller of theirs: a file for each, which
//! calls what the crate makes public. Whole runs, with the answers to all commands, are the rows of
//! hex_cli.
//!
//! They stand in a crate of their own since a crate with tests is proved twice, without them and
//! with them. The library itself has nothing.
#![tactic(auto)]

#[cfg(test)]
mod of_hex_cli;
#[cfg(test)]
mod of_hex_engine;
#[cfg(test)]
mod of_hexd_args;
#[cfg(test)]
mod of_htp_session;
#[cfg(test)]
mod of_turn_modes;
