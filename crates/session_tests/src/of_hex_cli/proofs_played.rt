//! Moves that are played by what was proved or looked ahead: `--solve` and `--look`.

use super::runs::{ample, check, run_of};
use super::tables::{bytes_of, check_rows};
use std::alloc::Global;
use std::process::Abort;
use std::str::from_utf8;
use std::test::Fail;
use std::thread::Threads;

/// Names, moves before a `genmove` of White's or Black's, and how `mustplay` begins then. Without a
/// budget each but the first is a search that is not known to be lost: H-search alone shows no win.
/// By exhaustive search the winner of each is known.
static PLAYED: &str = "\
three|boardsize 3~genmove b~|win|win
four|boardsize 4~play b d2~genmove w~|win|lost no~
five|boardsize 5~play b e4~genmove w~|win|lost no~
six|boardsize 6~genmove b~|win|lost no~
six-answers|boardsize 6~play b d3~play w d4~genmove b~|win|lost no~
lost-four|boardsize 4~play b d1~genmove w~|lost yes~allowed a1|lost no~
lost-five|boardsize 5~play b e2~genmove w~|lost yes~allowed a1|lost no~";

/// What the look-ahead tells of four positions, the same on every machine: rows that are open,
/// known to be lost, and only taken for won or lost, each with its line. By hand no number can be
/// worked out; a search whose values are the other player's, or that leaves out visits, threats or
/// bridges, has others. Of the first position it knows a cell to be won; that is certified.
static LOOKS: &str = "\
look-won-by-one|htp --playouts 1 --look 50|\
    boardsize 5~play b d1~play w b3~play b a4~genmove w~mustplay~look-report~search-report~|0|\
    = ~~= ~~= ~~= ~~= c2~~= win c2~~? no look~~? no search~~
look-lost-after-three|htp --playouts 1 --look 50|\
    boardsize 5~play b e4~play w e3~play b e1~genmove w~look-report~|0|\
    = ~~= ~~= ~~= ~~= d2~~= nodes 16~d2 9 0 line c2 c3~d3 1 0 lost~c4 2 0 line b4~\
    d4 1 0 lost~b5 4 0 lost line c4 d2~~
look-open|htp --playouts 1 --look 50|\
    boardsize 6~play b f1~play w e1~play b b1~play w d4~genmove b~look-report~|0|\
    = ~~= ~~= ~~= ~~= ~~= c4~~= nodes 50~f2 1 410~e3 2 444 line e4~f3 1 424~\
    c4 37 681 line b6 c5 c3 d3~e4 2 454 line e3~f4 1 468~a5 2 416 line b3~d5 1 419~e5 1 419~\
    f5 1 388~~
look-taken-for-won|htp --playouts 1 --look 50|\
    boardsize 6~play b c4~play w a4~play b c1~play w e1~play b e6~genmove w~look-report~|0|\
    = ~~= ~~= ~~= ~~= ~~= ~~= c2~~= nodes 32~c2 19 1000 line d2 d1 f1 e2 f2 e3~\
    c3 3 350 line e2 d3~d4 1 0 lost~b5 2 437 line c2~c5 4 467 line c2 d4~d5 2 336 line e3~\
    a6 1 387~b6 2 429 line d5~~
look-taken-for-lost|htp --playouts 1 --look 80|\
    boardsize 7~play b c3~play w d4~play b e2~play w c5~genmove b~look-report~|0|\
    = ~~= ~~= ~~= ~~= ~~= a6~~= nodes 80~a4 2 309 line b6~b4 11 454 line b6 e4 d6 f5~\
    c4 2 309 line b6~e4 6 0 line e3~a5 18 0 line b6 e4 e3 g2 f3~b5 12 0 line b6 e4 e3 g2 f3~\
    a6 12 363 line b4 e4 d6 d5~b6 9 353 line b5 e4 e3 g2 f3~a7 12 375 line b6 e4 d6~~";

// The answers of a session, each without what marks a success or a failure.
fn answers<R: Abort + Threads + Sync + Alloc<A = Global>>(
    rt: &R,
    words: &str,
    input: &str,
) -> Result<Vec<String>, Fail> {
    let alloc = rt.alloc();
    let left = run_of(rt, &ample(words, &bytes_of(alloc, input)?))?;
    assert_eq!(rt; left.status, 0, "{words}");
    let mut answers = Vec::new(alloc);
    for answer in from_utf8(left.link.given())?.split("\n\n") {
        if let Some((_mark, text)) = answer.split_once(' ') {
            answers.push(String::from_str(alloc, text)?)?;
        }
    }
    Ok(answers)
}

/// What `mustplay` and `wincert` answer after these commands.
fn played<R: Abort + Threads + Sync + Alloc<A = Global>>(
    rt: &R,
    words: &str,
    commands: &str,
) -> Result<(String, String), Fail> {
    let input = format!(in rt.alloc(); "{commands}mustplay~wincert~")?;
    let mut answers = answers(rt, words, &input)?;
    let certificate = answers.pop().ok_or("a certificate")?;
    let mustplay = answers.pop().ok_or("a plan")?;
    Ok((mustplay, certificate))
}

#[test]
fn plays_what_it_proves(rt: HostRuntime) -> Result<(), Fail> {
    let alloc = rt.alloc();
    for line in PLAYED.lines() {
        let mut fields = line.split('|');
        let name = fields.next().ok_or("a name")?;
        let commands = fields.next().ok_or("commands")?;
        let solved = bytes_of(alloc, fields.next().ok_or("a plan")?)?;
        let unsolved = bytes_of(alloc, fields.next().ok_or("a plan without")?)?;
        let (mustplay, certificate) = played(&rt, "htp --playouts 9 --solve 20000", commands)?;
        assert!(rt; mustplay.as_bytes().starts_with(&solved), "{name}");
        // A certificate of a loss says that the other player wins whoever places first.
        let verdict = if mustplay.starts_with("win") {
            b"yes semi\n"
        } else {
            b"yes full\n"
        };
        let text = format!(in alloc; "{certificate}\n")?;
        check(&rt, name, &ample("check", text.as_bytes()), verdict, 0)?;
        let (mustplay, _none) = played(&rt, "htp --playouts 9", commands)?;
        assert!(rt; mustplay.as_bytes().starts_with(&unsolved), "{name}");
    }
    Ok(())
}

/// A cell that the look-ahead knows to be won is played with a certificate, also without `--solve`;
/// H-search alone shows no win there, and nor does the solver before the stone.
#[test]
fn certifies_what_looks_won(rt: HostRuntime) -> Result<(), Fail> {
    let commands = "boardsize 6~play b e2~play w d3~play b c2~genmove w~";
    let (before, _none) = played(&rt, "htp --playouts 1 --solve 1", commands)?;
    assert!(rt; before.starts_with("lost no\n"));
    for words in [
        "htp --playouts 1 --look 50",
        "htp --playouts 1 --look 50 --solve 1",
    ] {
        let (mustplay, certificate) = played(&rt, words, commands)?;
        assert_eq!(rt; mustplay.as_str(), "win c4", "{words}");
        let text = format!(in rt.alloc(); "{certificate}\n")?;
        check(
            &rt,
            words,
            &ample("check", text.as_bytes()),
            b"yes semi\n",
            0,
        )?;
    }
    Ok(())
}

/// The look-ahead's cell is the one that is played and the only one that the tree has, each allowed
/// cell has a row, and no more nodes are judged than were given.
#[test]
fn looks_ahead(rt: HostRuntime) -> Result<(), Fail> {
    let input = "boardsize 6~play b a1~genmove w~search-report~look-report~mustplay~";
    let told = answers(&rt, "htp --playouts 7 --look 20", input)?;
    let [_, _, vertex, search, look, mustplay] = told.as_slice() else {
        return Err(Fail::from("six answers"));
    };
    let alloc = rt.alloc();
    let wanted = format!(in alloc; "playouts 7\n{vertex} 7 ")?;
    assert!(rt; search.starts_with(wanted.as_str()));
    assert_eq!(rt; search.lines().count(), 2);
    assert!(rt; look.starts_with("nodes 20\n"));
    let allowed = mustplay.lines().nth(1).ok_or("the allowed cells")?;
    assert_eq!(rt; look.lines().count(), allowed.split(' ').count());
    let none = answers(
        &rt,
        "htp --playouts 7",
        "boardsize 5~genmove b~look-report~",
    )?;
    assert_eq!(rt; none.last().ok_or("an answer")?.as_str(), "no look");
    Ok(())
}

#[test]
fn looks_are_told(rt: HostRuntime) -> Result<(), Fail> {
    check_rows(&rt, LOOKS)
}

// The last answer of a session.
fn last_answer<R: Abort + Threads + Sync + Alloc<A = Global>>(
    rt: &R,
    words: &str,
    input: &str,
) -> Result<String, Fail> {
    let mut answers = answers(rt, words, input)?;
    Ok(answers.pop().ok_or("an answer")?)
}

// With which cell the line of this cell's row begins.
fn chosen_line<'a>(vertex: &str, look: &'a str) -> Option<&'a str> {
    for row in look.lines() {
        if row.split(' ').next() == Some(vertex)
            && let Some((_row, line)) = row.split_once(" line ")
        {
            return line.split(' ').next();
        }
    }
    None
}

/// What a look-ahead found serves the next one while only moves are made. After `undo`,
/// `clear_board` and `boardsize` the same board is looked at as in a fresh session.
#[test]
fn keeps_its_tree(rt: HostRuntime) -> Result<(), Fail> {
    let alloc = rt.alloc();
    let words = "htp --playouts 1 --look 60";
    let begin = "play b b2~play w d4~";
    let first = format!(in alloc; "boardsize 7~{begin}genmove b~look-report~")?;
    let told = answers(&rt, words, &first)?;
    let [_, _, _, vertex, look] = told.as_slice() else {
        return Err(Fail::from("five answers"));
    };
    let answer = chosen_line(vertex, look).ok_or("a line")?;
    let ask = format!(in alloc; "play w {answer}~genmove b~look-report~")?;
    let fresh = format!(in alloc; "boardsize 7~{begin}play b {vertex}~{ask}")?;
    let fresh = last_answer(&rt, words, &fresh)?;
    let kept = format!(in alloc; "{first}{ask}")?;
    assert!(rt; last_answer(&rt, words, &kept)? != fresh);
    for (between, moves) in [("undo", ""), ("clear_board", begin), ("boardsize 7", begin)] {
        let input = format!(in alloc; "{first}{between}~{moves}play b {vertex}~{ask}")?;
        assert!(rt; last_answer(&rt, words, &input)? == fresh, "{between}");
    }
    Ok(())
}
