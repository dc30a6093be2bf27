//! The kinds of mode.

ghost use Rattle.std.specs.Prelude.{◌≡◌};
ghost use Rattle.hex_cli.specs.Modes.{kind_of};

use crate::solutions::SolveOptions;
use crate::whole_inputs::InputMode;
use hexd_args::{Mode, Options};
use turn_modes::TurnMode;

/// What kind of mode it is, and which of its kind.
#[derive(Clone, Copy, Debug, PartialEq, Eq)]
pub enum ModeKind {
    /// It plays a session over the devices.
    Session,
    /// It takes the whole input, and gives one text that answers it.
    WholeInput(InputMode),
    /// It reads nothing, and hands in one turn with its text.
    OneTurn(TurnMode),
}

impl ModeKind {
    /// The kind of the mode that the options say.
    pub fn of(options: &Options) -> ModeKind
        ensures { result ≡ kind_of options.now.mode options.now }
    {
        match options.mode {
            Mode::Htp => ModeKind::Session,
            Mode::Check => ModeKind::WholeInput(InputMode::Check),
            Mode::Migrate => ModeKind::WholeInput(InputMode::Migrate),
            Mode::Audit => ModeKind::WholeInput(InputMode::Audit),
            Mode::Sim => ModeKind::OneTurn(TurnMode::Sim),
            Mode::Bench => ModeKind::OneTurn(TurnMode::Bench),
            Mode::Solve => ModeKind::WholeInput(InputMode::Solve(SolveOptions {
                hsearch: options.hsearch,
                budget: options.budget,
                best: options.best,
            })),
        }
    }
}
