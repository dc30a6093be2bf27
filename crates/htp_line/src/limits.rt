//! A law of the limit of a line, with its number.
//!
//! Definitions name the constant, so a wrong number would make a wrong definition. So here the
//! number stands bare on purpose: of a name the law would hold whatever its number.

ghost use Rattle.std.specs.Prelude.{◌≡◌};

use super::splitter::LINE_LIMIT;

/// A law, with nothing to run: a line is kept up to this number of bytes.
pub fn limits_are_those_of_the_manual()
    ensures line { LINE_LIMIT ≡ 4096 }
{}
