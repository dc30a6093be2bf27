//! Runs that search: sessions, simulated schedules, and the large position.

use super::runs::{Case, ample, check, run_of};
use super::tables::{bytes_of, check_rows};
use hex_cells::{Size, read_vertex};
use std::test::Fail;
use tree_words::layout::{
    FRONT_WORDS, HEADER_WORDS, LINK_WORD, NODE_WORDS, RECORDS_AT, TALLY_WORD,
};
use tree_words::{Closed, report, visits_of};

// In the position of size 5 and seed 1 the mover has no move but b3 that wins: of each other one
// `solve` says that the other player wins. His connections don't show the win, and no cell but b3
// lies in all threats.
static SEARCHES: &str = "\
forced-win|htp --hsearch off --playouts 4|\
    boardsize 2~play b a2~play w b2~genmove b~search-report~winner~|0|\
    = ~~= ~~= ~~= a1~~= playouts 4~a1 2 2~b1 2 2~~= black~~
ten-on-one-cell|htp --hsearch off --playouts 10|boardsize 1~genmove b~search-report~|0|\
    = ~~= a1~~= playouts 10~a1 10 10~~
one-cell|htp|boardsize 1~mustplay~genmove b~mustplay~search-report~clear_board~mustplay~\
    wincert~|0|\
    = ~~? no search~~= a1~~= win a1~~? no search~~= ~~= win a1~~\
    = hexcert 1~size 1~player black~black~white~adj edge1 a1~adj edge2 a1~key 1 0~semi 2~~
lost-by-two-threats|htp --playouts 1|boardsize 2~play b a2~genmove w~mustplay~wincert~|0|\
    = ~~= ~~= a1~~= lost yes~allowed a1 b1 b2~threat a1~threat b1~~\
    = hexcert 2~size 2~player black~black a2~white~adj edge1 a1~adj edge2 a1~adj edge1 b1~\
    adj edge2 b1~key 1 0~key 3 2~or 5 4~full 6~~
no-connections|htp --hsearch off --playouts 1|boardsize 2~play b a2~genmove w~mustplay~|0|\
    = ~~= ~~= a1~~= lost no~allowed a1 b1 b2~~
one-turn|htp --hsearch off --playouts 1|boardsize 2~genmove b~search-report~mustplay~wincert~\
    play b a2~genmove w~search-report~|0|\
    = ~~= a1~~= playouts 1~a1 1 0~b1 0 0~a2 0 0~b2 0 0~~= lost no~allowed a1 b1 a2 b2~~\
    ? no certificate~~= ~~? game over~~= playouts 1~a1 1 0~b1 0 0~a2 0 0~b2 0 0~~
sim-one|sim --size 1 --workers 3 --playouts 10 --steps 100||0|best a1~playouts 10~a1 10 10~
sim-4|sim --size 2 --playouts 4||0|best a1~playouts 4~a1 1 0~b1 1 1~a2 1 1~b2 1 1~
sim-by-3|sim --size 2 --workers 3 --playouts 20 --steps 100||0|\
    best a2~playouts 20~a1 4 2~b1 6 5~a2 7 6~b2 3 2~
sim-100|sim --size 2 --playouts 100||0|best a2~playouts 100~a1 14 7~b1 32 20~a2 48 35~b2 6 1~
bench-one|bench --size 1 --playouts 5||0|size 1~stones 0~playouts 5~records 5~best a1 5~
bench-by-4|bench --size 2 --playouts 8 --workers 4||0|size 2~stones 1~playouts 8~records 8~
bench-12|bench --size 2 --playouts 12 --expand 1||0|\
    size 2~stones 1~playouts 12~records 12~best a1 6~
bench-6|bench --size 6 --playouts 20 --workers 2 --seed 154||0|\
    size 6~stones 10~playouts 20~records 20~
bench-large|bench --size 11 --playouts 100000 --workers 8 --seed 5||0|\
    size 11~stones 40~playouts 100000~records 100000~
bench-won|bench --size 1 --playouts 5 --look 3||0|size 1~stones 0~win a1~
bench-without-connections|bench --size 1 --playouts 5 --hsearch off --solve 9 --look 3||0|\
    size 1~stones 0~playouts 5~records 5~best a1 5~
bench-one-allowed|bench --size 5 --seed 1 --playouts 12 --look 3||0|\
    size 5~stones 8~playouts 12~records 12~best b3 12~
bench-one-wins|bench --size 5 --seed 1 --solve 10000||0|size 5~stones 8~win b3~";

static ONE_INPUT: &str = "boardsize 2~search-report~genmove b~search-report~wincert~";

static ONE_GIVEN: &str = "= ~~? no search~~= a1~~= playouts 1~a1 1 0~b1 0 0~a2 0 0~b2 0 0~~\
? no certificate~~";

#[test]
fn searches(rt: HostRuntime) -> Result<(), Fail> {
    check_rows(&rt, SEARCHES)?;
    let input = bytes_of(rt.alloc(), ONE_INPUT)?;
    let given = bytes_of(rt.alloc(), ONE_GIVEN)?;
    for words in [
        "htp --hsearch off --playouts 1 --seed 0",
        "htp --hsearch off --playouts 1 --seed 0 --workers 4",
        "htp --hsearch off --playouts 1 --seed 0 --workers 64",
    ] {
        check(&rt, words, &ample(words, &input), &given, 0)?;
    }
    let words = "sim --size 3 --workers 3 --playouts 200 --steps 300 --seed 9";
    let first = run_of(&rt, &ample(words, b""))?;
    assert_eq!(rt; first.status, 0, "sim-twice");
    check(&rt, "sim-twice", &ample(words, b""), first.link.given(), 0)
}

/// `four-playouts`: each child of the root has one visit.
#[test]
fn four_playouts(rt: HostRuntime) -> Result<(), Fail> {
    let case = ample(
        "htp --hsearch off --playouts 4",
        b"boardsize 2\ngenmove b\n",
    );
    let left = run_of(&rt, &case)?;
    assert_eq!(rt; left.link.given(), b"= \n\n= a1\n\n".as_slice());
    let turn = left.archive.turns().first().ok_or("a turn")?;
    let rows = report(rt.alloc(), turn.closed().ok_or("a tree")?)?;
    assert_eq!(rt; rows.len(), 4);
    for row in &rows {
        assert_eq!(rt; row.visits, 1);
    }
    Ok(())
}

/// `many-turns`: no turn leaves less memory to those after it.
#[test]
fn many_turns(rt: HostRuntime) -> Result<(), Fail> {
    let alloc = rt.alloc();
    let (mut input, mut given) = (Vec::new(alloc), Vec::new(alloc));
    for _ in 0..500 {
        input.extend_from_slice(b"genmove b\nundo\n")?;
        given.extend_from_slice(b"= a1\n\n= \n\n")?;
    }
    for words in [
        "htp --size 2 --hsearch off --playouts 1 --words 1024",
        "htp --size 1",
    ] {
        let case = Case {
            room: 500,
            ..ample(words, &input)
        };
        check(&rt, "many-turns", &case, &given, 0)?;
    }
    Ok(())
}

/// How many of `count` words are not 0, of which the first is at `first` and each next one is
/// `apart` words behind the one before.
fn count_words(words: &[u64], first: usize, apart: usize, count: usize) -> usize {
    let mut at = first;
    let mut found: usize = 0;
    for _ in 0..count {
        if words.get(at).is_some_and(|word| *word != 0) {
            found = found.saturating_add(1);
        }
        at = at.saturating_add(apart);
    }
    found
}

/// How many blocks are linked to the nodes of the block at this word.
fn links_of(closed: &Closed, block: usize) -> usize {
    let first = block.saturating_add(HEADER_WORDS + LINK_WORD);
    count_words(closed.words(), first, NODE_WORDS, 120)
}

/// `full-area`: the block area has room for the root's block and one more.
#[test]
fn full_area(rt: HostRuntime) -> Result<(), Fail> {
    let case = ample("htp --hsearch off --words 1024 --workers 8", b"genmove b\n");
    let left = run_of(&rt, &case)?;
    assert_eq!(rt; left.status, 0);
    let turn = left.archive.turns().first().ok_or("a turn")?;
    let closed = turn.closed().ok_or("a tree")?;
    let words = closed.words();
    let playouts = 10_000;
    assert_eq!(rt; count_words(words, RECORDS_AT, 1, playouts), playouts);
    let tally = words
        .get(RECORDS_AT + playouts + TALLY_WORD)
        .ok_or("a word")?;
    assert_eq!(rt; visits_of(*tally), 10_000);
    let root_block = FRONT_WORDS + playouts;
    assert_eq!(rt; links_of(closed, root_block), 1);
    let more = root_block + HEADER_WORDS + NODE_WORDS * 121;
    assert_eq!(rt; links_of(closed, more), 0);
    Ok(())
}

/// `large-board`: a move with connections on the largest board.
#[test]
fn large_board(rt: HostRuntime) -> Result<(), Fail> {
    let case = Case {
        piece: 1_000,
        ..ample(
            "htp --playouts 100",
            b"play b f6\nplay w e7\ngenmove b\nmustplay\n",
        )
    };
    let left = run_of(&rt, &case)?;
    assert_eq!(rt; left.status, 0);
    let given = left.link.given();
    let rest = given
        .strip_prefix(b"= \n\n= \n\n= ".as_slice())
        .ok_or("two moves")?;
    let end = rest.iter().position(|byte| *byte == b'\n').unwrap_or(0);
    let (vertex, mustplay) = rest.split_at(end.min(rest.len()));
    assert!(rt; read_vertex(vertex, Size::of(11).ok_or("no size")?).is_some());
    assert!(rt; vertex != b"f6".as_slice() && vertex != b"e7".as_slice());
    assert!(rt; mustplay.starts_with(b"\n\n= ") && mustplay.ends_with(b"\n\n"));
    Ok(())
}
