//! Tests of the crates of the search, of its plans and of its traces, as a caller of theirs: a file
//! for each, which calls what the crate makes public.
//!
//! They stand in a crate of their own since a crate with tests is proved twice, without them and
//! with them. The library itself has nothing.
#![tactic(auto)]

#[cfg(test)]
mod of_hex_plan;
#[cfg(test)]
mod of_play_out;
#[cfg(test)]
mod of_search_team;
#[cfg(test)]
mod of_seq_search;
#[cfg(test)]
mod of_sim_run;
#[cfg(test)]
mod of_trace_audit;
#[cfg(test)]
mod of_tree_rule;
#[cfg(test)]
mod of_tree_words;
#[cfg(test)]
mod of_uct_table;
#[cfg(test)]
mod of_walker;
