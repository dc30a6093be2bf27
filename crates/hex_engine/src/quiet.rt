//! What a quiet command does: one match over them.

ghost use Rattle.std.specs.Prelude.{◌≡◌, IfOk, OnErr};
ghost use Rattle.hex_engine.specs.BoardReplies.{in_conversation};
ghost use Rattle.hex_engine.specs.QuietReplies.{obeyed_quietly, quiet_reaction};
ghost use Rattle.hex_engine.specs.Requests.{Reacts, TellsNoFault};

use super::answers::{Answer, Fail, Memory};
use super::boards::{clear, play, resize, undo};
use super::commands::Quiet;
use super::last_turn::{tell_certificate, tell_look, tell_plan, tell_report};
use super::state::Engine;
use super::telling::{know, list, name_of_winner, print_game, show, tell};
use htp_line::HtpText;

impl Engine {
    /// Does what a command says that uses nothing up.
    /// Fails: `syntax error`, if it takes no arguments and there are some; else as its handler.
    #[tactic(auto, unfolding(crate::specs::QuietReplies::quiet_reaction))]
    pub(super) fn obey(&mut self, command: Quiet, args: &[HtpText]) -> Result<Answer, Memory>
        ensures ok { IfOk result
            (λ answer. Reacts
            (in_conversation self.old (quiet_reaction self.old command args.now)) answer self.new) }
        ensures calm { IfOk result TellsNoFault }
        ensures err { OnErr result (self.new ≡ self.old) }
    {
        if !command.takes_arguments() && !args.is_empty() {
            return Ok(Answer::Fail(Fail::Syntax));
        }
        self.handle(command, args)
    }

    /// Hands the arguments, if it takes any, to the handler of the command.
    fn handle(&mut self, command: Quiet, args: &[HtpText]) -> Result<Answer, Memory>
        ensures ok { IfOk result
            (λ answer. Reacts
            (in_conversation self.old (obeyed_quietly self.old command args.now)) answer self.new) }
        ensures calm { IfOk result TellsNoFault }
        ensures err { OnErr result (self.new ≡ self.old) }
    {
        let alloc = self.alloc;
        match command {
            Quiet::BoardSize => {
                self.kept.forget();
                Ok(resize(alloc, &mut self.game, args))
            }
            Quiet::ClearBoard => {
                self.kept.forget();
                Ok(clear(alloc, &mut self.game))
            }
            Quiet::KnownCommand => know(alloc, args),
            Quiet::ListCommands => list(alloc),
            Quiet::LookReport => tell_look(alloc, &self.last),
            Quiet::MustPlay => tell_plan(alloc, &self.last),
            Quiet::Name => tell(alloc, b"hexd"),
            Quiet::Play => Ok(play(alloc, &mut self.game, args)),
            Quiet::PrintSgf => print_game(alloc, &self.game),
            Quiet::ProtocolVersion => tell(alloc, b"2"),
            Quiet::Quit => Ok(Answer::Quit),
            Quiet::SearchReport => tell_report(alloc, &self.last),
            Quiet::ShowBoard => show(alloc, self.game.board()),
            Quiet::Undo => {
                self.kept.forget();
                Ok(undo(alloc, &mut self.game))
            }
            Quiet::Version => tell(alloc, b"1.0"),
            Quiet::WinCert => tell_certificate(alloc, &self.last),
            Quiet::Winner => tell(alloc, name_of_winner(self.game.board())),
        }
    }
}
