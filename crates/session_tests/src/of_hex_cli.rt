//! Whole runs over devices in memory: a file for each kind of row.

mod certificates;
mod failures;
mod gates;
mod long_inputs;
mod proofs_played;
mod records;
mod runs;
mod searches;
mod sessions;
mod solutions;
mod tables;
