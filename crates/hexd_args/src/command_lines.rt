//! A command line that was read.

ghost use Rattle.std.specs.Prelude.{◌≡◌, ◌↔◌, IfOk, IfSome, None, Some};
ghost use Rattle.std.specs.Prelude.{option_copied, option_map};
ghost use Rattle.hexd_args.specs.Reading.{AreRefused, WellFormed};
ghost use Rattle.hexd_args.specs.Values.{OptionsInRange};
ghost use Rattle.hexd_args.specs.declared.settings.Options.{Options};

use crate::reading::{copied, read_words};
use crate::{Memory, Options};
use hex_io::Word;
use std::alloc::Global;
use std::marker::Model;

/// The arguments of a command line, with the options that they ask for. Contracts see it as the
/// list of these arguments.
#[derive(Debug, Drop)]
pub struct CommandLine {
    words: Vec<Word>,
    options: Option<Options>,
}

impl Model for CommandLine {
    ghost use Rattle.std.specs.Prelude.{ℕ, List};
    ghost use Rattle.hexd_args.specs.Reading.{AreReadAs};

    ghost Value = { List (List ℕ) };

    ghost view = { λ l. l.words.items };

    ghost invariant = { λ l. AreReadAs l.words.items l.options };
}

impl CommandLine {
    /// The line of these arguments. Memory may run out.
    pub fn read(alloc: Global, words: Vec<Word>) -> Result<CommandLine, Memory>
        ensures { IfOk result (λ line. line ≡ words.items) }
    {
        let options = read_words(alloc, &words)?;
        Ok(CommandLine { words, options })
    }

    /// What the arguments ask for; none exactly if they are not well formed.
    pub fn options(&self) -> Option<&Options>
        ensures exact { (o : Options) → (option_copied result ≡ Some o) ↔ WellFormed self.now o }
        ensures ranges { IfSome result (λ r. OptionsInRange r.now) }
    {
        self.options.as_ref()
    }

    /// A copy of the name of the file for traces, which is the value of `--trace`. There is none
    /// exactly if the arguments are refused or don't have the option. Memory may run out.
    pub fn trace(&self, alloc: Global) -> Result<Option<Word>, Memory>
        ensures well_formed { IfOk result (λ name. (o : Options)
            → WellFormed self.now o → name ≡ o.trace) }
        ensures refused { IfOk result (λ name. AreRefused self.now → name ≡ None) }
    {
        match self.options() {
            Some(options) => copied(alloc, name_of(options)),
            None => Ok(None),
        }
    }
}

fn name_of(options: &Options) -> Option<&str>
    ensures { option_map (λ t. t.now) result ≡ options.now.trace }
{
    match &options.trace {
        Some(name) => Some(name.as_str()),
        None => None,
    }
}
