//! A law of the limits of a pair: each with its number.
//!
//! What it means that a report is closed under the rules rests on how many entries of a pair are
//! kept, so a wrong number would make a wrong definition. So here the numbers stand bare on
//! purpose: of a name the law would hold whatever its number.

ghost use Rattle.std.specs.Prelude.{◌≡◌};

use crate::entries::{MOST_FULL, MOST_SEMI};

/// A law, with nothing to run: a pair keeps at most 4 full entries and 6 semi ones.
pub fn four_full_and_six_semi_entries_are_kept()
    ensures full { MOST_FULL ≡ 4 }
    ensures semi { MOST_SEMI ≡ 6 }
{}
