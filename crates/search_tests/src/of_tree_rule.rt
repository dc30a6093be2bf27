//! Steps of two seats of one tree, by scripts that have each step with its answer.

mod one_cell;
mod race;
mod scripts;
