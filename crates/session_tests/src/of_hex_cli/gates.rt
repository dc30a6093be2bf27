//! Workers that are counted at a gate, and wait for one another there: in a session and in mode
//! bench.

use super::runs::{RunResult, ample, run_at};
use search_team::CountingGate;
use std::alloc::Global;
use std::test::Fail;
use tree_words::report;

/// Words of searches by three workers, and their input.
const TEAMS: [(&str, &[u8]); 2] = [
    ("htp --hsearch off --size 3 --workers 3", b"genmove b\n"),
    ("bench --size 3 --workers 3", b""),
];

/// `gate-counts`: three workers with a walk each meet at the gate, and each passes it once by its
/// own number, before its first add alone. If one playout is all, who has no walk doesn't pass.
#[test]
fn gate_counts(rt: HostRuntime) -> Result<(), Fail> {
    for (words, input) in TEAMS {
        for (meeting, playouts) in [(3, 3), (0, 1)] {
            let gate = CountingGate::new(meeting);
            let words = format!(in rt.alloc(); "{words} --playouts {playouts}")?;
            let left = run_at(&rt, &ample(words.as_str(), input), &gate)?;
            assert_eq!(rt; left.status, 0, "{words}");
            assert!(rt; !gate.was_missed(), "{words}");
            let [first, second, third] = gate.counts();
            let most = first.max(second).max(third);
            let sum = first.saturating_add(second).saturating_add(third);
            assert_eq!(rt; (most, sum), (1, playouts), "{words}");
        }
    }
    Ok(())
}

/// Words of searches by two workers with a walk each, their input, a prefix of what is given, and
/// how many of the root's children are not the first.
const MEETINGS: [(&str, &[u8], &[u8], usize); 2] = [
    (
        "htp --hsearch off --size 3 --workers 2 --playouts 2",
        b"genmove b\n",
        b"= a1\n\n",
        8,
    ),
    (
        "bench --size 3 --workers 2 --playouts 2",
        b"",
        b"size 3\n",
        5,
    ),
];

/// How often the first child of the root was visited in the run's turn, and how many children have
/// no visit.
fn visits_of(alloc: Global, left: &RunResult) -> Result<(u32, usize), Fail> {
    let turn = left.archive.turns().first().ok_or("a turn")?;
    let rows = report(alloc, turn.closed().ok_or("a tree")?)?;
    let first = rows.first().ok_or("a row")?.visits;
    Ok((first, rows.iter().filter(|row| row.visits == 0).count()))
}

/// `gate-htp`, `gate-bench`: neither worker had added when the other chose, so both walks go to the
/// first child.
#[test]
fn gate_meets(rt: HostRuntime) -> Result<(), Fail> {
    for (words, input, front, others) in MEETINGS {
        let gate = CountingGate::new(2);
        let left = run_at(&rt, &ample(words, input), &gate)?;
        assert_eq!(rt; gate.counts(), [1, 1, 0], "{words}");
        assert!(rt; !gate.was_missed(), "{words}");
        assert!(rt; left.link.given().starts_with(front), "{words}");
        assert_eq!(rt; visits_of(rt.alloc(), &left)?, (2, others), "{words}");
    }
    Ok(())
}
