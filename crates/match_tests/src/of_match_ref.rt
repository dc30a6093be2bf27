//! Rows of runs, and writes that fail. Games that meet at a gate have a file of their own.

mod gates;

use hex_cells::Colour;
use hex_io::{MemLink, Word};
use match_ref::{Played, Steps, game_line, run_match};
use search_team::{CountingGate, Gate, OpenGate};
use std::alloc::Global;
use std::test::Fail;
use std::thread::Threads;

// What a run left: its status, what was given, and the line for the errors.
#[derive(Drop)]
struct RunResult {
    status: u8,
    link: MemLink,
    errors: MemLink,
}

// A link without input, with room for so many bytes, which are given one at a time.
fn link_with(alloc: Global, room: usize) -> Result<MemLink, Fail> {
    Ok(MemLink::make(
        alloc,
        Vec::new(alloc),
        1,
        room,
        0,
        Vec::new(alloc),
        Vec::new(alloc),
    )?)
}

// The run of a line of words, with one space between two, over a link with so much room.
fn run_of<R: Threads + Sync + Alloc<A = Global>, G: Gate + Sync>(
    rt: &R,
    line: &str,
    room: usize,
    gate: &G,
) -> Result<RunResult, Fail> {
    let alloc = rt.alloc();
    let mut words = Vec::new(alloc);
    for word in line.split(' ') {
        words.push(Word::of(String::from_str(alloc, word)?))?;
    }
    if line.is_empty() {
        words.clear();
    }
    let mut link = link_with(alloc, room)?;
    let mut errors = link_with(alloc, 100)?;
    let status = run_match(rt, alloc, &words, &mut link, &mut errors, gate);
    Ok(RunResult {
        status,
        link,
        errors,
    })
}

const MATCH_TWO: &str = "--size 1 --games 2 --playouts-a 1 --playouts-b 1 --threads 2";

const TWO_GAMES: &str = "0 a black 1\n1 b black 1\na 1 b 1\n";

const OPENED: &str =
    "--size 2 --games 5 --playouts-a 9 --playouts-b 9 --records on --opening a1,B1";

/// Games 0, 1 and 4 have the first opening, games 2 and 3 the second.
const FIVE_OPENED: &str = "0 a black 3\n(;FF[4]GM[11]SZ[2];B[a1];W[b1];B[a2])\n\
    1 a white 4\n(;FF[4]GM[11]SZ[2];B[a1];W[a2];B[b1];W[b2])\n\
    2 a black 3\n(;FF[4]GM[11]SZ[2];B[b1];W[a2];B[b2])\n\
    3 b black 3\n(;FF[4]GM[11]SZ[2];B[b1];W[b2];B[a2])\n\
    4 b white 4\n(;FF[4]GM[11]SZ[2];B[a1];W[a2];B[b1];W[b2])\n\
    a 3 b 2\n";

/// `gate-match-run`: so it is in a run.
#[test]
fn runs_meet_at_the_gate(rt: HostRuntime) -> Result<(), Fail> {
    let gate = CountingGate::new(2);
    let left = run_of(&rt, MATCH_TWO, 1_000, &gate)?;
    assert_eq!(rt; left.status, 0);
    assert_eq!(rt; gate.counts(), [1, 1, 0]);
    assert!(rt; !gate.was_missed());
    Ok(())
}

/// Matches with their texts: `match-two`, `match-record` and others.
#[test]
fn plays_matches(rt: HostRuntime) -> Result<(), Fail> {
    let table = [
        (MATCH_TWO, TWO_GAMES),
        (
            "--size 1 --games 1 --records on",
            "0 a black 1\n(;FF[4]GM[11]SZ[1];B[a1])\na 1 b 0\n",
        ),
        ("--size=1 --games=1", "0 a black 1\na 1 b 0\n"),
        ("--size=1 --games=1 --", "0 a black 1\na 1 b 0\n"),
        (
            "--size 2 --games 1 --playouts-a 9 --playouts-b 9 --records=on --seed=9",
            "0 a black 3\n(;FF[4]GM[11]SZ[2];B[a2];W[b1];B[a1])\na 1 b 0\n",
        ),
        ("--size 1 --games 2 --opening a1", TWO_GAMES),
        (OPENED, FIVE_OPENED),
    ];
    for (line, text) in table {
        let left = run_of(&rt, line, 1_000, &OpenGate)?;
        assert_eq!(rt; left.status, 0, "{line}");
        assert_eq!(rt; left.link.given(), text.as_bytes(), "{line}");
        assert!(rt; left.errors.given().is_empty());
    }
    Ok(())
}

/// Words that are refused: `match-no-games` and others.
#[test]
fn refuses_words(rt: HostRuntime) -> Result<(), Fail> {
    let table = [
        "--games 0",
        "--games 1001",
        "--size 12",
        "--threads 65",
        "--games 1 --games 1",
        "--records ON",
        "--records",
        "x",
        "-- x",
        "-- --",
        "-- -",
        "-",
        "--help",
        "--workers 2",
        "--playouts 5",
        "--playouts-a=0",
        "--playouts-a=000000000000000000001",
        "--words-b=1023",
        "--expand-a 1001",
        "--weight-b 1025",
        "--seed -1",
        "--opening",
        "--opening=",
        "--opening a1 --opening b1",
        "--opening a0",
        "--opening a01",
        "--opening a6",
        "--opening f1",
        "--opening a1,a6,b1",
        "--opening ,a1",
        "--opening a1,,b1",
        "--opening a1,",
        "--opening a1;b1",
        "--opening swap-pieces",
        "--opening a2 --size 1",
    ];
    for line in table {
        let left = run_of(&rt, line, 1_000, &OpenGate)?;
        assert_eq!(rt; left.status, 2, "{line}");
        assert!(rt; left.link.given().is_empty(), "{line}");
        assert_eq!(rt; left.errors.given(), b"hexd: usage\n".as_slice(), "{line}");
    }
    Ok(())
}

/// As many openings as there may be, and one more.
#[test]
fn counts_openings(rt: HostRuntime) -> Result<(), Fail> {
    let mut line = String::from_str(rt.alloc(), "--size 1 --games 2 --opening a1")?;
    for _ in 1..121 {
        line.push_str(",A1")?;
    }
    let most = run_of(&rt, &line, 1_000, &OpenGate)?;
    assert_eq!(rt; most.status, 0);
    assert_eq!(rt; most.link.given(), TWO_GAMES.as_bytes());
    line.push_str(",a1")?;
    let more = run_of(&rt, &line, 1_000, &OpenGate)?;
    assert_eq!(rt; more.status, 2);
    assert!(rt; more.link.given().is_empty());
    Ok(())
}

/// No words, and `--` alone, ask for the match of the defaults.
#[test]
fn plays_by_default(rt: HostRuntime) -> Result<(), Fail> {
    let bare = run_of(&rt, "", 10_000, &OpenGate)?;
    let ended = run_of(&rt, "--", 10_000, &OpenGate)?;
    assert_eq!(rt; bare.status, 0);
    assert_eq!(rt; bare.link.given().split(|byte| *byte == b'\n').count(), 12);
    assert!(rt; bare.errors.given().is_empty());
    assert_eq!(rt; ended.status, 0);
    assert_eq!(rt; ended.link.given(), bare.link.given());
    assert!(rt; ended.errors.given().is_empty());
    Ok(())
}

/// A write that fails at each byte of a text is the last one. Nothing is read.
#[test]
fn faults_each(rt: HostRuntime) -> Result<(), Fail> {
    for room in 0..TWO_GAMES.len() {
        let left = run_of(&rt, MATCH_TWO, room, &OpenGate)?;
        assert_eq!(rt; left.status, 4, "{room}");
        assert_eq!(rt; left.link.given(), TWO_GAMES.as_bytes().split_at(room).0);
        assert_eq!(rt; left.link.write_count(), room.saturating_add(1));
        assert_eq!(rt; left.link.read_count(), 0);
        assert!(rt; left.errors.given().is_empty());
    }
    Ok(())
}

/// `match-threads`: one thread and eight give the same text.
#[test]
fn threads_change_nothing(rt: HostRuntime) -> Result<(), Fail> {
    let words = "--size 4 --games 12 --playouts-a 50 --playouts-b 200 --records on";
    let eight_threads =
        "--size 4 --games 12 --playouts-a 50 --playouts-b 200 --records on --threads 8";
    let one = run_of(&rt, words, 10_000, &OpenGate)?;
    let eight = run_of(&rt, eight_threads, 10_000, &OpenGate)?;
    assert_eq!(rt; one.status, 0);
    assert_eq!(rt; one.link.given(), eight.link.given());
    Ok(())
}

/// The line of a game that nobody won, and of one that White won.
#[test]
fn tells_winners(rt: HostRuntime) -> Result<(), Fail> {
    let table = [
        (7, None, "7 none none 0\n"),
        (8, Some(Colour::White), "8 b white 0\n"),
        (9, Some(Colour::White), "9 a white 0\n"),
    ];
    for (number, winner, line) in table {
        let game = Played {
            steps: Steps::of(Vec::new(rt.alloc())),
            winner,
        };
        let told = game_line(rt.alloc(), number, &game)?;
        assert_eq!(rt; told.as_slice(), line.as_bytes());
    }
    Ok(())
}
