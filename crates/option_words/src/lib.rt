//! The words of a command line, for any table of options.
//!
//! **What it is.** The *words* are those after the program's name. Each *option* stands at most
//! once, as `--name value` or `--name=value`; one word may be *positional*, before, between or
//! after them. A word `--` ends the options, and every word after it is positional. A program's
//! *form* is its table of options, each with its default or without one, and whether the positional
//! word is required; a *command* is the form as `clap` reads it. All values are text.
//!
//! **A caller** makes its command, has the words read by it, and reads each value as a number or a
//! switch:
//!
//! ```text
//! let command = command_with(alloc, true, &[("size", Some("11"))])?;
//! let Some(found) = find(command, &words)? else {
//!     return usage();
//! };
//! let size = found_number(&found, ("size", "11", 1, 11))?;
//! ```
//!
//! **What is proved.** [`find`] finds something only if the words are a line of the form, `IsLine`
//! of `specs/Lines.antt`, and in every line but one whose positional word is a hyphen alone. What
//! it finds of a name is what the line says, or the default. That definition and the grammar that
//! it stands on, `specs/Grammar.antt`, do not speak of `clap`, which reads the words here;
//! [`clap_reads_lines`] is the law that both say the same. Numbers are read by this crate: `clap`
//! takes a plus sign and more than twenty digits.
//!
//! **What is only tested, or not said.** That memory suffices: a call may always answer [`Memory`].
//! That nothing is found in a line whose positional word is a hyphen alone. The tables of lines
//! stand in the tests of the crates above.
//!
//! **Limits.** There are no short options, no shortened names, no `--help` and no `--version`.
//! Every word has to be text. That a command reads its form, `ReadsForm` of `specs/Command.antt`,
//! is shown for a given table by computing it.
//!
//! **Why so.**
//!
//! - Two programs read their words by the same rules, so the grammar, and the proof that `clap`
//!   reads it, are a crate below both. That a program's command reads its table is computed for
//!   that table (`ReadsForm`), and not proved of every table: names have to be told apart anyway,
//!   by computation too.
//! - A command gets its options as one list, so that a program's table is one list in its code and
//!   one in its definitions, without a proof of its own.
//! - A form says only whether a positional word is required; match_ref, which wants none, refuses
//!   one when it reads the values. So the grammar has no second kind of line.
#![tactic(auto)]

mod command;
mod finding;
mod found_numbers;
mod numbers;
mod refusals;

pub use command::{CommandOption, command_with};
pub use finding::{clap_reads_lines, find};
pub use found_numbers::{LongNumberOption, NumberOption, found_long_number, found_number};
pub use numbers::{small_number, switch};
pub use refusals::Memory;
