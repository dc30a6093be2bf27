//! Tests of match_ref as a caller of it.
//!
//! They stand in a crate of their own since a crate with tests is proved twice, without them and
//! with them. The library itself has nothing.
#![tactic(auto)]

#[cfg(test)]
mod of_match_ref;
