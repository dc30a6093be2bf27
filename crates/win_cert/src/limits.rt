//! A law of the limits of certificates: each with its number, as docs/use/CERTIFICATES.md has it.
//!
//! Definitions name these constants, so a wrong number would make a wrong definition. So here the
//! numbers stand bare on purpose: of a name the law would hold whatever its number.

ghost use Rattle.std.specs.Prelude.{◌≡◌};

use crate::certs::{
    FIRST_VERSION, LATEST_VERSION, MOST_LATEST_LINES, MOST_LINES, SECOND_VERSION, THIRD_VERSION,
};
use crate::lines::{LEAST_CASES, LEAST_MANY, MOST_CASES, MOST_NUMBER};

/// A law, with nothing to run: the four versions, how many lines stand before the claim, how many
/// numbers `cases` has and an `or` of many, and how far lines are numbered.
pub fn limits_are_those_of_the_manual()
    ensures versions { (FIRST_VERSION ≡ 1) × (SECOND_VERSION ≡ 2) × (THIRD_VERSION ≡ 3)
        × (LATEST_VERSION ≡ 4) }
    ensures lines { (MOST_LINES ≡ 200000) × (MOST_LATEST_LINES ≡ 1000000) }
    ensures cases { (LEAST_CASES ≡ 2) × (LEAST_MANY ≡ 4) × (MOST_CASES ≡ 127) }
    ensures number { MOST_NUMBER ≡ 999999 }
{}
