//! What no clause says: the trace of one playout, and a write that fails.

ghost use Rattle.std.specs.Prelude.{IfSome};
ghost use Rattle.hex_board.specs.Positions.{AllEmpty};
ghost use Rattle.tree_words.specs.Settings.{IsAny};

use hex_board::Board;
use hex_cells::{CellSet, Colour, Size};
use hex_io::MemLink;
use hex_plan::types::Plan;
use hex_plan::{Archive, ArchiveFault, Planned, Threats, Turn};
use seq_search::plain_search;
use std::alloc::Global;
use std::test::Fail;
use trace_audit::types::{Audit, Flaw};
use trace_audit::{MOST_BYTES, TraceArchive, audit};
use tree_words::{Knobs, Shape};

// The words of the trace behind its name: the fields, and then the tree of one playout on the empty
// board of size 2, which went to a1 and which White won. The search of one worker draws one number;
// the tally of the root is 2^32 + 1.
const ONE_PLAYOUT: [u64; 42] = [
    2, 0, 0, 0, 0, 0, 15, 0, 1, 1, 0, 65536, 8, 180, 27, 27, 1, 23, 0, 7, 4294967297, 0, 3, 15, 0,
    4, 0, 0, 4294967296, 4294967296, 257, 0, 0, 0, 514, 0, 0, 0, 771, 0, 0, 4294967296,
];

// The empty cells of the board, if it has one.
fn some_empties(board: &Board) -> Option<CellSet>
    ensures { IfSome result (λ set. IsAny set × AllEmpty board.now set) }
{
    let all = board.empties();
    all.least()?;
    Some(all)
}

// The first turn of Black on the empty board of size 2, after one playout.
fn one_playout(alloc: Global) -> Result<Turn, Fail> {
    let size = Size::of(2).ok_or("a size")?;
    let board = Board::of(size, CellSet::none(), CellSet::none());
    let allowed = some_empties(&board).ok_or("an empty cell")?;
    let knobs = Knobs {
        workers: 1,
        playouts: 1,
        seed: 0,
        words: 65_536,
        expand: 8,
        weight: 180,
    };
    let shape = Shape::make(&board, Colour::Black, allowed, &knobs);
    let Ok(closed) = plain_search(alloc, &shape) else {
        return Err(Fail::from("memory"));
    };
    let planned = Planned {
        plan: Plan::Search {
            threats: Threats::of(Vec::new(alloc)),
            allowed,
            lost: false,
        },
        loss: None,
        entered: 0,
    };
    Ok(Turn::searched(closed, 0, planned, None))
}

// The trace of one playout, byte by byte.
fn wanted(alloc: Global) -> Result<Vec<u8>, Fail> {
    let mut bytes = b"HEXTREE1".to_vec(alloc)?;
    for word in ONE_PLAYOUT {
        bytes.extend_from_slice(&word.to_le_bytes())?;
    }
    Ok(bytes)
}

// A link that takes at most so many bytes, a hundred at a time.
fn link(alloc: Global, room: usize) -> Result<MemLink, Fail> {
    let none = Vec::new(alloc);
    match MemLink::make(alloc, Vec::new(alloc), 100, room, 0, none, Vec::new(alloc)) {
        Ok(link) => Ok(link),
        Err(_) => Err(Fail::from("memory")),
    }
}

// Two turns of one playout: both traces stand one behind the other.
#[test]
fn writes_the_trace_of_each_turn(rt: HostRuntime) -> Result<(), Fail> {
    let alloc = rt.alloc();
    let Ok(mut archive) = TraceArchive::make(alloc, link(alloc, 1_000)?) else {
        return Err(Fail::from("memory"));
    };
    assert!(rt; archive.take(one_playout(alloc)?) == Ok(()));
    assert!(rt; archive.take(one_playout(alloc)?) == Ok(()));
    let out = archive.into_link();
    let trace = wanted(alloc)?;
    assert_eq!(rt; trace.len(), 344);
    assert_eq!(rt; out.given().len(), 688);
    assert!(rt; out.given().get(..344) == Some(trace.as_slice()));
    assert!(rt; out.given().get(344..) == Some(trace.as_slice()));
    Ok(())
}

// There is room for so many bytes: a prefix of the trace is given, and the archive is at fault.
#[test]
fn a_write_that_fails_leaves_a_front(rt: HostRuntime) -> Result<(), Fail> {
    let alloc = rt.alloc();
    let trace = wanted(alloc)?;
    for room in [0, 8, 50, 128, 343] {
        let Ok(mut archive) = TraceArchive::make(alloc, link(alloc, room)?) else {
            return Err(Fail::from("memory"));
        };
        assert!(rt; archive.take(one_playout(alloc)?) == Err(ArchiveFault));
        let out = archive.into_link();
        assert!(rt; Some(out.given()) == trace.get(..room));
    }
    Ok(())
}

// The bytes of these words behind the name.
fn text(alloc: Global, words: &[u64]) -> Result<Vec<u8>, Fail> {
    let mut bytes = b"HEXTREE1".to_vec(alloc)?;
    for word in words {
        bytes.extend_from_slice(&word.to_le_bytes())?;
    }
    Ok(bytes)
}

// What an audit says of the bytes.
fn audited(alloc: Global, bytes: &[u8]) -> Result<Audit, Fail> {
    if MOST_BYTES < bytes.len() {
        return Err(Fail::from("too long"));
    }
    match audit(alloc, bytes) {
        Ok(answer) => Ok(answer),
        Err(_) => Err(Fail::from("memory")),
    }
}

// The audit of the trace of one playout with one word changed.
fn changed(alloc: Global, at: usize, word: u64) -> Result<Audit, Fail> {
    let mut words = ONE_PLAYOUT;
    if let Some(place) = words.get_mut(at) {
        *place = word;
    }
    let bytes = text(alloc, &words)?;
    audited(alloc, &bytes)
}

#[test]
fn each_flaw_is_found(rt: HostRuntime) -> Result<(), Fail> {
    let alloc = rt.alloc();
    assert_eq!(rt; changed(alloc, 0, 2)?, Audit::Yes { trees: 1 });
    let cases = [
        (0, 12, Flaw::BadForm),
        (0, 0, Flaw::BadForm),
        (1, 16, Flaw::BadForm),
        (2, 1, Flaw::BadForm),
        (5, 2, Flaw::BadForm),
        (6, 0, Flaw::BadForm),
        (6, 31, Flaw::BadForm),
        (8, 0, Flaw::BadForm),
        (8, 65, Flaw::BadForm),
        (9, 0, Flaw::BadForm),
        (11, 1_023, Flaw::BadForm),
        (12, 0, Flaw::BadForm),
        (13, 1_025, Flaw::BadForm),
        (14, 28, Flaw::BadForm),
        (15, 28, Flaw::BadForm),
        (14, 6, Flaw::BadForm),
        (19, 8, Flaw::Block),
        (22, 4, Flaw::Block),
        (23, 7, Flaw::Block),
        (24, 1, Flaw::Block),
        (25, 3, Flaw::Block),
        (26, 1, Flaw::Block),
        (27, 7, Flaw::Block),
        (27, 19, Flaw::Block),
        (27, 1 << 40, Flaw::Block),
        (27, 18446744073709551615, Flaw::Block),
        (17, 22, Flaw::Record),
        (17, 0, Flaw::Record),
        (17, 7, Flaw::Record),
        (17, 25, Flaw::Record),
        (19, 0, Flaw::Record),
        (17, 18446744073709551615, Flaw::Record),
        (20, 4294967296, Flaw::Count),
        (20, 4294967298, Flaw::Count),
        (29, 0, Flaw::Count),
        (41, 0, Flaw::Count),
        (33, 1, Flaw::Count),
        (16, 0, Flaw::End),
        (16, 66, Flaw::End),
        (16, 1 << 63, Flaw::End),
    ];
    for (at, word, why) in cases {
        assert_eq!(rt; changed(alloc, at, word)?, Audit::No { tree: 0, why });
    }
    Ok(())
}

// The words behind the name of a tree of two playouts on the empty board of size 2, on which Black
// may play a1 alone: both went to a1; White won the first, and Black the second.
const TWO_PLAYOUTS: [u64; 31] = [
    2, 0, 0, 0, 0, 0, 1, 0, 1, 2, 0, 65536, 8, 180, 16, 16, 2, 25, 24, 0, 8, 8589934593, 0, 4, 15,
    0, 1, 0, 0, 8589934593, 8589934593,
];

// The audit of the trace of two playouts with this expand number.
fn expanded(alloc: Global, expand: u64) -> Result<Audit, Fail> {
    let mut words = TWO_PLAYOUTS;
    words[12] = expand;
    let bytes = text(alloc, &words)?;
    audited(alloc, &bytes)
}

// A leaf has two records: with two as the expand number it may, with one it should have a block.
#[test]
fn a_leaf_with_too_many_records_is_found(rt: HostRuntime) -> Result<(), Fail> {
    let alloc = rt.alloc();
    let why = Flaw::Growth;
    assert_eq!(rt; expanded(alloc, 2)?, Audit::Yes { trees: 1 });
    assert_eq!(rt; expanded(alloc, 1)?, Audit::No { tree: 0, why });
    Ok(())
}

// The audit of the trace of one playout with its root's block moved on by so many words, links and
// parents with it, and so many words claimed behind that.
fn moved(alloc: Global, by: u32, behind: u32) -> Result<Audit, Fail> {
    let by = u64::from(by);
    let next = 27 + by + u64::from(behind);
    let mut words = Vec::new(alloc);
    words.extend_from_slice(&ONE_PLAYOUT[..14])?;
    // The count of the words, NEXT, TICKET, the record and the root.
    words.extend_from_slice(&[next, next, 1, 2 * (11 + by) + 1])?;
    words.extend_from_slice(&[0, 7 + by, 4_294_967_297, 0])?;
    for _ in 0..by {
        words.push(0)?;
    }
    words.extend_from_slice(&ONE_PLAYOUT[22..])?;
    for _ in 0..behind {
        words.push(0)?;
    }
    audited(alloc, &text(alloc, &words)?)
}

// `moved-root-block`: one worker may claim a largest block of 488 words that is not linked, and no
// word more. The bound on NEXT is told from the end of the root's block, wherever this lies.
#[test]
fn the_root_block_may_lie_anywhere(rt: HostRuntime) -> Result<(), Fail> {
    let alloc = rt.alloc();
    for (by, behind) in [(0, 488), (489, 0), (100, 389), (100, 488)] {
        assert!(rt; moved(alloc, by, behind)? == Audit::Yes { trees: 1 });
    }
    let growth = Audit::No {
        tree: 0,
        why: Flaw::Growth,
    };
    for by in [0, 100, 489] {
        assert!(rt; moved(alloc, by, 489)? == growth);
    }
    Ok(())
}

// No bytes, a text twice, and a text behind which a text is cut short.
#[test]
fn texts_are_counted(rt: HostRuntime) -> Result<(), Fail> {
    let alloc = rt.alloc();
    let trace = wanted(alloc)?;
    let mut bytes = Vec::new(alloc);
    assert_eq!(rt; audited(alloc, &bytes)?, Audit::Yes { trees: 0 });
    bytes.extend_from_slice(&trace)?;
    bytes.extend_from_slice(&trace)?;
    assert_eq!(rt; audited(alloc, &bytes)?, Audit::Yes { trees: 2 });
    bytes.truncate(500);
    let why = Flaw::BadForm;
    assert_eq!(rt; audited(alloc, &bytes)?, Audit::No { tree: 1, why });
    Ok(())
}
