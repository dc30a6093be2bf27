//! Tests of the crates of the board, its connections and certificates, the game, its records and
//! its lines, as a caller of theirs: a file for each, which calls what the crate makes public.
//!
//! They stand in a crate of their own since a crate with tests is proved twice, without them and
//! with them. The library itself has nothing.
#![tactic(auto)]

#[cfg(test)]
mod of_cert_check;
#[cfg(test)]
mod of_cert_draft;
#[cfg(test)]
mod of_circuit;
#[cfg(test)]
mod of_conn_store;
#[cfg(test)]
mod of_hex_board;
#[cfg(test)]
mod of_hex_cells;
#[cfg(test)]
mod of_hex_found;
#[cfg(test)]
mod of_hex_game;
#[cfg(test)]
mod of_hex_io;
#[cfg(test)]
mod of_hex_solve;
#[cfg(test)]
mod of_hsearch;
#[cfg(test)]
mod of_htp_line;
#[cfg(test)]
mod of_live_links;
#[cfg(test)]
mod of_look_ahead;
#[cfg(test)]
mod of_sgf_game;
#[cfg(test)]
mod of_sgf_tree;
#[cfg(test)]
mod of_win_cert;
