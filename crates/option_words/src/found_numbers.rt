//! Options that are numbers, and what was found for them.

ghost use Rattle.std.specs.Prelude.{◌≡◌, ◌↔◌, ℕ, Some};
ghost use Rattle.clap.specs.Words.{first_value, found_of};
ghost use Rattle.option_words.specs.Values.{IsNumberFrom};

use crate::numbers::{number, small_number};
use clap::ArgMatches;

/// An option that is a number: its name, its default, and its least and its greatest number.
pub type NumberOption = (&'static str, &'static str, u32, u32);

/// The same of a number of 64 bits.
pub type LongNumberOption = (&'static str, &'static str, u64, u64);

/// The number that was found for this option: its argument, or the default. There is none if
/// it is no number as [`small_number`] reads it, or out of the option's range.
pub fn found_number(found: &ArgMatches<'_>, option: NumberOption) -> Option<u32>
    ensures { (n : ℕ) → (result ≡ Some n)
        ↔ IsNumberFrom option.entry.2 option.entry.3
        (first_value (found_of found.now) option.entry.0.now) n }
{
    small_number(found.get_str(option.0), option.2, option.3)
}

/// The same of an option whose number has 64 bits.
pub fn found_long_number(found: &ArgMatches<'_>, option: LongNumberOption) -> Option<u64>
    ensures { (n : ℕ) → (result ≡ Some n)
        ↔ IsNumberFrom option.entry.2 option.entry.3
        (first_value (found_of found.now) option.entry.0.now) n }
{
    number(found.get_str(option.0), option.2, option.3)
}
