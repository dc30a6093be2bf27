//! Workers that are counted at a gate and meet there, one worker's tree by three searches, and how
//! much memory a search takes at first. That whole runs pass the gate is told by session_tests
//! (of_hex_cli/gates.rt).

ghost use Rattle.std.specs.Prelude.{◌≡◌, IfSome};

use hex_board::Board;
use hex_cells::{CellSet, Colour, Size};
use search_team::{CountingGate, Gate, OpenGate, search, search_within};
use seq_search::plain_search;
use sim_run::simulate;
use std::sync::atomic::{AtomicBool, AtomicU32, Ordering};
use std::test::Fail;
use std::thread;
use tree_words::layout::RECORDS_AT;
use tree_words::{Closed, Knobs, MOST_WORKERS, Shape};

// The empty board of a size, Black to move.
fn empty_board(size: u32, workers: u32, playouts: u32, words: u32) -> Option<Shape>
    ensures { IfSome result (λ shape. shape.knobs.workers ≡ workers) }
{
    let board = Board::of(Size::of(size)?, CellSet::none(), CellSet::none());
    let allowed = board.empties();
    let in_range = (1..=MOST_WORKERS).contains(&workers)
        && (1..=1_000).contains(&playouts)
        && (1_024..=16_777_216).contains(&words);
    if allowed.least().is_none() || !in_range {
        return None;
    }
    let knobs = Knobs {
        workers,
        playouts,
        seed: 0,
        words,
        expand: 2,
        weight: 180,
    };
    Some(Shape::make(&board, Colour::Black, allowed, &knobs))
}

// Workers, playouts and how many workers meet: three with a walk each, who have numbers of their
// own; one, who passes before his first add alone, however many walks and adds he makes; and three
// of whom one has a walk, and the others don't pass.
#[test]
fn each_walker_passes_once(rt: HostRuntime) -> Result<(), Fail> {
    for (workers, playouts, meeting) in [(3, 3, 3), (1, 100, 0), (3, 1, 0), (3, 1, 0), (3, 1, 0)] {
        let shape = empty_board(3, workers, playouts, 1_024).ok_or("a shape")?;
        let gate = CountingGate::new(meeting);
        let _closed = search(&rt, rt.alloc(), &shape, &gate)?;
        assert!(rt; !gate.was_missed());
        let [first, second, third] = gate.counts();
        let (most, rest) = (first.max(second).max(third), second.saturating_add(third));
        let sum = first.saturating_add(rest);
        assert_eq!(rt;
            (most, sum),
            (1, workers.min(playouts)),
            "{workers}, {playouts}"
        );
    }
    Ok(())
}

// How often a worker that is held looks whether the others have come, before it gives up.
const MOST_LOOKS: u32 = 10_000_000;

// A gate at which so many workers wait until all of them are there.
#[derive(Drop)]
struct MeetingGate {
    come: AtomicU32,
    missed: AtomicBool,
    workers: u32,
}

impl MeetingGate {
    fn new(workers: u32) -> MeetingGate {
        MeetingGate {
            come: AtomicU32::new(0),
            missed: AtomicBool::new(false),
            workers,
        }
    }
}

impl Gate for MeetingGate {
    fn pass(&self, _worker: u32) {
        self.come.fetch_add(1, Ordering::SeqCst);
        for _ in 0..MOST_LOOKS {
            if self.workers <= self.come.load(Ordering::SeqCst) {
                return;
            }
            thread::yield_now();
        }
        self.missed.store(true, Ordering::SeqCst);
    }
}

// All workers of a team are under way at the same time, each with a walk: none is let through
// before all have come. A team that works one half after the other misses.
#[test]
fn all_workers_meet(rt: HostRuntime) -> Result<(), Fail> {
    for workers in [2, 8, MOST_WORKERS] {
        let shape = empty_board(3, workers, workers, 1_024).ok_or("a shape")?;
        let gate = MeetingGate::new(workers);
        let _closed = search(&rt, rt.alloc(), &shape, &gate)?;
        assert!(rt; !gate.missed.load(Ordering::SeqCst), "{workers}");
        assert_eq!(rt; gate.come.load(Ordering::SeqCst), workers);
    }
    Ok(())
}

// Size, workers, playouts, and how many words a search may hold. The first table is enough, for the
// gate is passed once by each worker, and it is a small part of the shape's 16,777,216 words.
const FIRST_TABLES: [(u32, u32, u32, usize); 5] = [
    (3, 1, 1_000, 20_000),
    (5, 1, 1_000, 40_000),
    (5, 3, 1_000, 80_000),
    (9, 1, 1_000, 120_000),
    (9, 3, 1_000, 250_000),
];

#[test]
fn the_first_table_is_enough(rt: HostRuntime) -> Result<(), Fail> {
    for (size, workers, playouts, most) in FIRST_TABLES {
        let shape = empty_board(size, workers, playouts, 16_777_216).ok_or("a shape")?;
        let gate = CountingGate::new(0);
        let closed = search(&rt, rt.alloc(), &shape, &gate)?;
        let [first, second, third] = gate.counts();
        assert_eq!(rt; first.max(second).max(third), 1, "{size}, {workers}");
        assert!(rt; closed.words().len() <= most, "{size}, {workers}");
    }
    Ok(())
}

// A first table that is too small: the search is made again in all words, and the gate passed again
// by who passed it.
#[test]
fn a_search_is_made_again(rt: HostRuntime) -> Result<(), Fail> {
    for workers in [1, 3] {
        let shape = empty_board(5, workers, 1_000, 65_536).ok_or("a shape")?;
        let gate = CountingGate::new(workers);
        let closed = search_within(&rt, rt.alloc(), &shape, 1_024, &gate)?;
        let [first, second, third] = gate.counts();
        assert!(rt; !gate.was_missed());
        assert_eq!(rt; first.max(second).max(third), 2, "{workers}");
        let plain = plain_search(rt.alloc(), &shape)?;
        assert_eq!(rt; closed.words().len(), plain.words().len());
        assert!(rt; workers > 1 || behind_the_front(&closed) == behind_the_front(&plain));
    }
    Ok(())
}

// The records and the blocks of a tree: all of its words but NEXT and TICKET.
fn behind_the_front(closed: &Closed) -> &[u64] {
    closed.words().get(RECORDS_AT..).unwrap_or(&[])
}

// With 65,536 words `search` takes a table of fewer, behind which the words are 0.
#[test]
fn one_worker_has_one_tree(rt: HostRuntime) -> Result<(), Fail> {
    for (size, playouts, words) in [(3, 100, 1_024), (5, 1_000, 65_536), (5, 1_000, 4_096)] {
        let shape = empty_board(size, 1, playouts, words).ok_or("a shape")?;
        let plain = plain_search(rt.alloc(), &shape)?;
        let team = search(&rt, rt.alloc(), &shape, &OpenGate)?;
        let simulated = simulate(rt.alloc(), &shape, &[0, 0, 0])?;
        assert!(rt; behind_the_front(&plain).len() > 1_000);
        for (at, word) in plain.words().iter().enumerate() {
            assert_eq!(rt; team.word(at), *word, "{size}, {words}");
        }
        assert!(rt;
            behind_the_front(&simulated) == behind_the_front(&plain),
            "{size}, {words}"
        );
    }
    Ok(())
}
