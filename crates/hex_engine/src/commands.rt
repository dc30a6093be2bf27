//! The commands and their names.

ghost use Rattle.std.specs.Prelude.{◌≡◌, ◌∷◌, ◌++◌, IfOk, OnOk};
ghost use Rattle.std.specs.List.{flat_map};
ghost use Rattle.hex_engine.specs.Commands.{command_named, name_of, all_names, takes_arguments};

use std::alloc::{AllocError, Global};

/// A command of the protocol (GTP version 2, draft, with the vertices of Hex).
#[derive(Clone, Copy, Debug, PartialEq, Eq)]
pub enum Command {
    /// One that uses nothing up.
    Quiet(Quiet),
    /// One that may use something up.
    Using(Using),
}

/// A command that may use something up.
#[derive(Clone, Copy, Debug, PartialEq, Eq)]
pub enum Using {
    /// Asks for a move of the engine, which is played. It uses up a turn.
    GenMove,
    /// Fetches the record of a game. It uses up a file.
    LoadSgf,
}

/// A command that uses nothing up.
#[derive(Clone, Copy, Debug, PartialEq, Eq)]
pub enum Quiet {
    /// Empties the board, and gives it a size.
    BoardSize,
    /// Empties the board.
    ClearBoard,
    /// Asks whether a command is built.
    KnownCommand,
    /// Asks for the names of all commands.
    ListCommands,
    /// Asks for what the last turn's look-ahead found.
    LookReport,
    /// Asks for what was known before the last turn was searched.
    MustPlay,
    /// Asks for the engine's name.
    Name,
    /// Makes a move.
    Play,
    /// Asks for the record of the game.
    PrintSgf,
    /// Asks for the version of the protocol.
    ProtocolVersion,
    /// Ends the session.
    Quit,
    /// Asks for the report of the last turn's search.
    SearchReport,
    /// Asks for the board as text.
    ShowBoard,
    /// Takes back the last step.
    Undo,
    /// Asks for the engine's version.
    Version,
    /// Asks for the certificate of the last turn's win.
    WinCert,
    /// Asks who is joined.
    Winner,
}

/// All commands, in the order in which `list_commands` names them.
pub const COMMANDS: &[Command] = &[
    Command::Quiet(Quiet::BoardSize),
    Command::Quiet(Quiet::ClearBoard),
    Command::Using(Using::GenMove),
    Command::Quiet(Quiet::KnownCommand),
    Command::Quiet(Quiet::ListCommands),
    Command::Using(Using::LoadSgf),
    Command::Quiet(Quiet::LookReport),
    Command::Quiet(Quiet::MustPlay),
    Command::Quiet(Quiet::Name),
    Command::Quiet(Quiet::Play),
    Command::Quiet(Quiet::PrintSgf),
    Command::Quiet(Quiet::ProtocolVersion),
    Command::Quiet(Quiet::Quit),
    Command::Quiet(Quiet::SearchReport),
    Command::Quiet(Quiet::ShowBoard),
    Command::Quiet(Quiet::Undo),
    Command::Quiet(Quiet::Version),
    Command::Quiet(Quiet::WinCert),
    Command::Quiet(Quiet::Winner),
];

impl Command {
    /// The command of that name, compared byte by byte. `None` exactly if no command has it.
    #[tactic(auto, unfolding(crate::specs::Commands::command_named))]
    pub fn named(word: &[u8]) -> Option<Command>
        ensures { result ≡ command_named word.now }
    {
        COMMANDS
            .iter()
            .copied()
            .find(|command| command.name().as_bytes() == word)
    }

    /// The name, as a user types it.
    pub fn name(self) -> &'static str
        ensures { result.now ≡ name_of self }
    {
        match self {
            Command::Quiet(Quiet::BoardSize) => "boardsize",
            Command::Quiet(Quiet::ClearBoard) => "clear_board",
            Command::Using(Using::GenMove) => "genmove",
            Command::Quiet(Quiet::KnownCommand) => "known_command",
            Command::Quiet(Quiet::ListCommands) => "list_commands",
            Command::Using(Using::LoadSgf) => "loadsgf",
            Command::Quiet(Quiet::LookReport) => "look-report",
            Command::Quiet(Quiet::MustPlay) => "mustplay",
            Command::Quiet(Quiet::Name) => "name",
            Command::Quiet(Quiet::Play) => "play",
            Command::Quiet(Quiet::PrintSgf) => "printsgf",
            Command::Quiet(Quiet::ProtocolVersion) => "protocol_version",
            Command::Quiet(Quiet::Quit) => "quit",
            Command::Quiet(Quiet::SearchReport) => "search-report",
            Command::Quiet(Quiet::ShowBoard) => "showboard",
            Command::Quiet(Quiet::Undo) => "undo",
            Command::Quiet(Quiet::Version) => "version",
            Command::Quiet(Quiet::WinCert) => "wincert",
            Command::Quiet(Quiet::Winner) => "winner",
        }
    }
}

impl Quiet {
    /// Whether it is asked for with arguments.
    pub fn takes_arguments(self) -> bool
        ensures { result ≡ takes_arguments self }
    {
        matches!(self, Quiet::BoardSize | Quiet::KnownCommand | Quiet::Play)
    }
}

/// All names, each on a line.
#[tactic(auto, unfolding(crate::specs::Commands::all_names))]
pub fn command_list(alloc: Global) -> Result<Vec<u8>, AllocError>
    ensures { IfOk result (λ text. text.items ≡ all_names) }
{
    let mut text = COMMANDS[0].name().as_bytes().to_vec(alloc)?;
    push_lines(&mut text, &COMMANDS[1..])?;
    Ok(text)
}

/// The names of these commands, a line feed before each.
fn push_lines(text: &mut Vec<u8>, commands: &[Command]) -> Result<(), AllocError>
    ensures { OnOk result
        (text.new.items ≡ text.old.items ++ flat_map (λ c. 10 ∷ name_of c) commands.now) }
{
    for command in commands {
        text.push(b'\n')?;
        text.extend_from_slice(command.name().as_bytes())?;
    }
    Ok(())
}
