//! What the words of hexd's command line ask for.
//!
//! **What it is.** The *words* are those after the program's name. One of them is positional and
//! names the *mode*; each *option* stands at most once, before or after it, as `--name value` or
//! `--name=value`. A word `--` ends the options, and every word after it is positional. [`Options`]
//! has the mode and the value of each option, given or default.
//!
//! **A caller** hands in the words, and asks the line that was read of them for the options, of
//! which there are none if the words are wrong:
//!
//! ```text
//! let line = CommandLine::read(alloc, words)?;
//! let Some(options) = line.options() else {
//!     return usage();
//! };
//! ```
//!
//! **What is proved.** A [`CommandLine`] has options exactly if its words are well formed with
//! these values, `WellFormed` of `specs/Reading.antt`, and none exactly if no options make them so.
//! The grammar on which that stands is the crate option_words', for hexd's table of options,
//! `hexd_form` of `specs/Table.antt`. The names, defaults and ranges of that table are the
//! manual's: [`options_are_those_of_the_manual`] has them as numbers and texts.
//!
//! **What is only tested, or not said.** That memory suffices: a call may always answer [`Memory`].
//! The tests have a table of lines, each with its answer by the rules above.
//!
//! **Limits.** The modes are those of [`Mode`]; each other name is refused. There are no short
//! options, no shortened names, no `--help` and no `--version`. Every word has to be text.
//!
//! **Why so.**
//!
//! - The words are read once, and then go with what they ask for: the program needs it before
//!   `hex_cli::run`, and `run` promises something of the words. Contracts see a [`CommandLine`] as
//!   its words alone. That its options are those of its words is what the type keeps (`AreReadAs`),
//!   so no clause above speaks of a reading. The words themselves are not looked at again.
//! - All options of the table are read and tested in every mode, so that scripts go on working when
//!   an option gets its effect.
//! - The name, default, least and greatest number of an option are a constant each, which code and
//!   definitions name. They are pairs and fours and no struct, since definitions can name no
//!   constant of a struct's type. The limits of the search stand there by their names in tree_words
//!   and uct_table. Tests write the numbers out: a test that took them from the table would follow
//!   it wherever it went.
#![tactic(auto)]

mod command;
mod command_lines;
mod laws;
mod modes;
mod reading;
mod settings;
mod table;

pub use command_lines::CommandLine;
pub use laws::options_are_those_of_the_manual;
pub use option_words::Memory;
pub use settings::{Mode, Options};
