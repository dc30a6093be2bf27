//! Games in halves: each half in a thread of its own.

ghost use Rattle.std.specs.Prelude.{◌≡◌, ◌++◌, ◌+◌, ◌*◌, ◌<◌, ◌≤◌, IfOk, OnOk};
ghost use Rattle.std.specs.Thread.{IsSync};
ghost use Rattle.std.specs.Vec.Iter.{into_iter_items};
ghost use Rattle.match_ref.specs.Dealt.{AreGamesBy, DealsNext, dealt_in_turn};
ghost use Rattle.match_ref.specs.Matches.{IsMatch};
ghost use Rattle.match_ref.specs.declared.settings.TheConstants.{MOST_GAMES};

use super::passes::pass_gate;
use super::played::Played;
use super::playing::play_game;
use super::refusals::Memory;
use super::settings::Match;
use search_team::Gate;
use std::alloc::{AllocError, Global};
use std::thread::{Threads, join};
use std::vec::IntoIter;

// Moves the next game, if there is one, to the end of the list.
fn push_next(all: &mut Vec<Played>, rest: &mut IntoIter<Played, Global>) -> Result<(), AllocError>
    ensures { OnOk result (DealsNext all.old.items (into_iter_items rest.old)
        all.new.items (into_iter_items rest.new)) }
{
    match rest.next() {
        None => Ok(()),
        Some(game) => Ok(all.push(game)?),
    }
}

// One of the first list, then one of the second, and so on.
fn in_turn(alloc: Global, evens: Vec<Played>, odds: Vec<Played>) -> Result<Vec<Played>, AllocError>
    ensures { IfOk result (λ all. all.items ≡ dealt_in_turn evens.items odds.items) }
{
    let mut all = Vec::new(alloc);
    let mut evens_left = evens.into_iter();
    let mut odds_left = odds.into_iter();
    'games: while let Some(game) = evens_left.next() {
        all.push(game)?;
        push_next(&mut all, &mut odds_left)?;
    }
    Ok(all)
}

// Plays the match's games from the number `first` on, each `step` above the one before, one after
// another.
fn one_by_one<R: Threads + Sync, G: Gate + Sync>(
    rt: &R,
    alloc: Global,
    setup: &Match,
    first: u32,
    step: u32,
    gate: &G,
) -> Result<Vec<Played>, Memory>
    requires setup { IsMatch setup.now }
    requires some { (0 < step) × (step ≤ 2 * MOST_GAMES) }
    requires few { first ≤ 2 * MOST_GAMES }
    ensures { IfOk result (λ games. AreGamesBy setup.now first step games.items) }
{
    let mut games = Vec::new(alloc);
    let mut number = first;
    'games: while number < setup.games {
        let pass = pass_gate(gate, number);
        let game = play_game(rt, alloc, setup, pass)?;
        games.push(game)?;
        number += step;
    }
    Ok(games)
}

/// Plays the match's games from the number `first` on, each `step` above the one before, in at most
/// so many threads. Each half gets every other one, so the first two are never in one half.
pub fn games_by<R: Threads + Sync, G: Gate + Sync>(
    rt: &R,
    alloc: Global,
    setup: &Match,
    first: u32,
    step: u32,
    threads: u32,
    gate: &G,
) -> Result<Vec<Played>, Memory>
    requires setup { IsMatch setup.now }
    requires some { (0 < step) × (step ≤ 2 * MOST_GAMES) }
    requires few { first ≤ 2 * MOST_GAMES }
    ensures { IfOk result (λ games. AreGamesBy setup.now first step games.items) }
{
    if threads <= 1 || setup.games <= first + step {
        return one_by_one(rt, alloc, setup, first, step, gate);
    }
    let next = first + step;
    let twice = step + step;
    let part = threads / 2;
    let rest = threads - part;
    let (left, right) = join(
        rt,
        move || -> Result<Vec<Played>, Memory>
            requires { IsSync R.row × IsMatch setup.now × (0 < twice) × (twice ≤ 2 * MOST_GAMES)
                × (first ≤ 2 * MOST_GAMES) }
            ensures { IfOk result (λ games. AreGamesBy setup.entry.now first twice games.items) }
        { games_by(rt, alloc, setup, first, twice, rest, gate) },
        move || -> Result<Vec<Played>, Memory>
            requires { IsSync R.row × IsMatch setup.now × (0 < twice) × (twice ≤ 2 * MOST_GAMES)
                × (next ≤ 2 * MOST_GAMES) }
            ensures { IfOk result (λ games. AreGamesBy setup.entry.now next twice games.items) }
        { games_by(rt, alloc, setup, next, twice, part, gate) },
    );
    let evens = left?;
    let odds = right?;
    let all = in_turn(alloc, evens, odds)?;
    Ok(all)
}
