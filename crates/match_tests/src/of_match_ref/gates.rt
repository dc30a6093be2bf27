//! Games that meet at a gate, and games that crowd it: as many are played side by side as there are
//! threads, and no more.

ghost use Rattle.std.specs.Prelude.{IfSome};
ghost use Rattle.match_ref.specs.Matches.{IsMatch};

use hex_cells::Size;
use match_ref::{MOST_GAMES, MOST_THREADS, Match, Openings, Side, play_match};
use search_team::{CountingGate, Gate};
use std::alloc::Global;
use std::sync::atomic::{AtomicBool, AtomicU32, Ordering};
use std::test::Fail;
use std::thread;

// A match of so many games of one stone in so many threads, if they are in their ranges.
fn small_match(alloc: Global, games: u32, threads: u32) -> Option<Match>
    ensures { IfSome result IsMatch }
{
    let size = Size::of(1)?;
    if !(1..=MOST_GAMES).contains(&games) || !(1..=MOST_THREADS).contains(&threads) {
        return None;
    }
    let side = Side {
        playouts: 1,
        words: 65_536,
        expand: 8,
        weight: 180,
        solve: 0,
        look: 0,
    };
    Some(Match {
        size,
        games,
        threads,
        seed: 0,
        openings: Openings::none(alloc),
        a: side,
        b: side,
    })
}

/// `gate-match`: games 0 and 1 meet, whatever the numbers of games and threads are, and each of the
/// first three passes once.
#[test]
fn games_meet_at_the_gate(rt: HostRuntime) -> Result<(), Fail> {
    for (games, threads, third) in [(2, 2, 0), (4, 2, 1), (12, 8, 1), (3, 64, 1)] {
        let gate = CountingGate::new(2);
        let setup = small_match(rt.alloc(), games, threads).ok_or("a match")?;
        let played = play_match(&rt, rt.alloc(), &setup, &gate)?;
        assert_eq!(rt; played.len(), games as usize);
        assert_eq!(rt; gate.counts(), [1, 1, third], "{games} {threads}");
        assert!(rt; !gate.was_missed(), "{games} {threads}");
    }
    Ok(())
}

/// How often a game at a crowded gate looks whether more have come.
const MOST_LOOKS: u32 = 20_000;

/// A gate that counts how many games are at it at once. Each stays until more are there than are to
/// be, or for some looks.
#[derive(Drop)]
struct CrowdGate {
    inside: AtomicU32,
    most: AtomicU32,
    threads: u32,
}

impl Gate for CrowdGate {
    fn pass(&self, _game: u32) {
        let others = self.inside.fetch_add(1, Ordering::SeqCst);
        self.most
            .fetch_max(others.saturating_add(1), Ordering::SeqCst);
        for _ in 0..MOST_LOOKS {
            if self.most.load(Ordering::SeqCst) > self.threads {
                break;
            }
            thread::yield_now();
        }
        self.inside.fetch_sub(1, Ordering::SeqCst);
    }
}

/// `match-crowd`: no more games are played at once than there are threads. A match with a thread
/// for each game would have more of them at the gate.
#[test]
fn games_keep_to_the_threads(rt: HostRuntime) -> Result<(), Fail> {
    for (games, threads) in [(4, 1), (6, 2), (12, 3), (16, 5)] {
        let gate = CrowdGate {
            inside: AtomicU32::new(0),
            most: AtomicU32::new(0),
            threads,
        };
        let setup = small_match(rt.alloc(), games, threads).ok_or("a match")?;
        let played = play_match(&rt, rt.alloc(), &setup, &gate)?;
        assert_eq!(rt; played.len(), games as usize);
        let most = gate.most.load(Ordering::SeqCst);
        assert!(rt; 0 < most && most <= threads, "{games} {threads}");
    }
    Ok(())
}

/// How often a game at a meeting looks whether the others have come, before it gives up.
const MOST_WAITS: u32 = 10_000_000;

/// A gate at which the first games wait until so many have come as are to meet.
#[derive(Drop)]
struct MeetingGate {
    come: AtomicU32,
    missed: AtomicBool,
    meeting: u32,
}

impl Gate for MeetingGate {
    fn pass(&self, _game: u32) {
        self.come.fetch_add(1, Ordering::SeqCst);
        for _ in 0..MOST_WAITS {
            if self.meeting <= self.come.load(Ordering::SeqCst) {
                return;
            }
            thread::yield_now();
        }
        self.missed.store(true, Ordering::SeqCst);
    }
}

/// `match-meeting`: as many games are played at once as there are threads, or all if they are
/// fewer. Of a match in two threads two would wait for the others in vain.
#[test]
fn games_fill_the_threads(rt: HostRuntime) -> Result<(), Fail> {
    for (games, threads) in [(4, 4), (5, 5), (8, 64), (12, 4), (16, 16)] {
        let gate = MeetingGate {
            come: AtomicU32::new(0),
            missed: AtomicBool::new(false),
            meeting: threads.min(games),
        };
        let setup = small_match(rt.alloc(), games, threads).ok_or("a match")?;
        let played = play_match(&rt, rt.alloc(), &setup, &gate)?;
        assert_eq!(rt; played.len(), games as usize);
        assert_eq!(rt; gate.come.load(Ordering::SeqCst), games);
        assert!(rt; !gate.missed.load(Ordering::SeqCst), "{games} {threads}");
    }
    Ok(())
}
