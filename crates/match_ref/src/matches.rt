//! All games of a match.

ghost use Rattle.std.specs.Prelude.{IfOk, ◌≡◌, length, ℕ, Some};
ghost use Rattle.std.specs.List.{slice_get};
ghost use Rattle.hex_board.specs.Positions.{empty_board};
ghost use Rattle.hex_game.specs.Games.{AreLegal};
ghost use Rattle.match_ref.specs.Dealt.{AreGamesOf};
ghost use Rattle.match_ref.specs.Matches.{IsMatch, IsMatchGame};
ghost use Rattle.match_ref.specs.declared.played.Played.{Played};

use super::halves::games_by;
use super::played::Played;
use super::refusals::Memory;
use super::settings::Match;
use search_team::Gate;
use std::alloc::Global;
use std::thread::Threads;

/// Plays the games of the match, side by side in its threads, and answers them in order. They are
/// those of one thread, whatever the number of threads and the schedule.
///
/// The gate is passed with the game's number before its first move, as the type of a game's pass
/// says (src/passes.rt). It refuses only if memory runs out. The call returns if its threads do.
pub fn play_match<R: Threads + Sync, G: Gate + Sync>(
    rt: &R,
    alloc: Global,
    setup: &Match,
    gate: &G,
) -> Result<Vec<Played>, Memory>
    requires { IsMatch setup.now }
    ensures all { IfOk result (λ games. AreGamesOf setup.now games.items) }
    ensures count { IfOk result (λ games. length games.items ≡ setup.now.games) }
    ensures games { IfOk result (λ games. (i : ℕ) (p : Played)
        → slice_get games.items i ≡ Some p → IsMatchGame setup.now i p) }
    ensures legal { IfOk result (λ games. (i : ℕ) (p : Played) → slice_get games.items i ≡ Some p
        → AreLegal (empty_board setup.now.size) p.steps) }
{
    games_by(rt, alloc, setup, 0, 1, setup.threads, gate)
}
