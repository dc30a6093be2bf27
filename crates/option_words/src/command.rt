//! The command line as `clap` reads it. All values are text here.

ghost use Rattle.std.specs.Prelude.{◌≡◌, IfOk};
ghost use Rattle.clap.specs.Words.{app_of, with_rule};
ghost use Rattle.option_words.specs.Command.{app_of_form, form_of, option_of, option_rule};
ghost use Rattle.option_words.specs.Command.{plain_app, word_rule};

use clap::{Arg, ArgAction, Command};
use std::alloc::{AllocError, Global};

/// An option as a command is given it: its name, and its default, if it has one.
pub type CommandOption<'a> = (&'a str, Option<&'a str>);

/// The command with these options, in this order, and with one positional word, which may be
/// required. No word names the program, and nothing asks for help.
pub fn command_with<'a>(
    alloc: Global,
    required: bool,
    options: &[CommandOption<'a>],
) -> Result<Command<'a>, AllocError>
    ensures { IfOk result (λ c. app_of c ≡ app_of_form (form_of required options.now)) }
{
    let mut command = plain_command(alloc, required)?;
    'options: for option in options {
        command = with_option(alloc, command, *option)?;
    }
    Ok(command)
}

// The command without options.
fn plain_command<'a>(alloc: Global, required: bool) -> Result<Command<'a>, AllocError>
    ensures { IfOk result (λ c. app_of c ≡ with_rule plain_app (word_rule required)) }
{
    let word = Arg::new(alloc, "word")
        .required(required)
        .action(ArgAction::Set);
    let plain = Command::new(alloc, "words")
        .no_binary_name(true)
        .disable_help_flag(true)
        .disable_version_flag(true);
    plain.arg(word)
}

// The command with one more option.
fn with_option<'a>(
    alloc: Global,
    command: Command<'a>,
    option: CommandOption<'a>,
) -> Result<Command<'a>, AllocError>
    ensures { IfOk result
        (λ c. app_of c ≡ with_rule (app_of command.entry) (option_rule (option_of option.entry))) }
{
    let (name, default) = option;
    let bare = Arg::new(alloc, name).long(name).action(ArgAction::Set);
    match default {
        Some(text) => command.arg(bare.default_value(text)),
        None => command.arg(bare),
    }
}
