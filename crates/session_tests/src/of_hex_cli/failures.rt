//! Devices that fail: each read, each write, and archives without room. After a fault nothing is
//! read and nothing written.

use super::certificates::V1;
use super::runs::{Case, ample, check, checked, run_of};
use super::tables::bytes_of;
use std::alloc::Global;
use std::process::Abort;
use std::test::Fail;
use std::thread::Threads;

/// Words and inputs of runs whose reads and writes fail in turn: a session over a small board, one
/// that loads, searches and certifies, and the other modes.
static FAILING: &str = "\
htp|boardsize 3~play b a2~undo~name~
htp --playouts 2 --words 1024|loadsgf g.sgf~printsgf~boardsize 2~play b a2~genmove w~mustplay~\
    clear_board~genmove b~wincert~
migrate|hexcert 1~
audit|HEXTREE1~
solve --hsearch off --budget 1|(;GM[11]SZ[2])
sim --size 2 --playouts 3 --words 1024|
bench --size 2 --playouts 3 --words 1024|";

/// The prefix of a text that has so many answers, each of which ends with two line feeds.
fn front_of(text: &[u8], answers: usize) -> &[u8] {
    let mut left = answers;
    let mut end = 0;
    'pairs: for (at, pair) in text.windows(2).enumerate() {
        if left == 0 {
            break 'pairs;
        }
        if pair == b"\n\n".as_slice() {
            left -= 1;
            end = at.saturating_add(2);
        }
    }
    &text[..end.min(text.len())]
}

/// How many answers the text has.
fn answers_in(text: &[u8]) -> usize {
    let mut answers: usize = 0;
    for pair in text.windows(2) {
        if pair == b"\n\n".as_slice() {
            answers = answers.saturating_add(1);
        }
    }
    answers
}

/// How many bytes the first lines of the input have, with the line behind these.
fn length_with(input: &[u8], lines: usize) -> usize {
    let mut left = lines;
    for (at, byte) in input.iter().enumerate() {
        if *byte == b'\n' && left == 0 {
            return at.saturating_add(1);
        }
        if *byte == b'\n' {
            left = left.saturating_sub(1);
        }
    }
    input.len()
}

/// How many reads, of one byte each, a run has made that gave these bytes and is about to give
/// more. In a session they go up to the end of the next line, and in another mode they are all,
/// with that at the end.
fn reads_before(words: &str, input: &[u8], given: &[u8]) -> usize {
    if words.starts_with("htp") {
        length_with(input, answers_in(given))
    } else if input.is_empty() {
        0
    } else {
        input.len().saturating_add(1)
    }
}

/// Each read fails in turn, in pieces of one byte. In a session the whole lines that were taken
/// were answered, and in another mode nothing was given. The read that fails is the last one.
fn check_reads<R: Abort + Threads + Sync + Alloc<A = Global>>(
    rt: &R,
    words: &str,
    input: &[u8],
    given: &[u8],
) -> Result<(), Fail> {
    for length in 0..input.len().saturating_add(1) {
        let taken = &input[..length];
        let lines = if words.starts_with("htp") {
            taken.iter().filter(|byte| **byte == b'\n').count()
        } else {
            0
        };
        let case = Case {
            piece: 1,
            bad_read: Some(u32::try_from(length).unwrap_or(0)),
            ..ample(words, input)
        };
        let answers = front_of(given, lines);
        let left = checked(rt, "read-faults-each", &case, answers, 3)?;
        assert_eq!(rt; left.link.read_count(), length.saturating_add(1), "{words}");
        assert_eq!(rt; left.link.write_count(), answers.len(), "{words}");
    }
    Ok(())
}

/// Each write fails in turn, in pieces of one byte: the bytes before it were given. The write that
/// fails is the last one, and nothing is read after it.
fn check_writes<R: Abort + Threads + Sync + Alloc<A = Global>>(
    rt: &R,
    words: &str,
    input: &[u8],
    given: &[u8],
) -> Result<(), Fail> {
    for length in 0..given.len() {
        let case = Case {
            piece: 1,
            bad_write: Some(u32::try_from(length).unwrap_or(0)),
            ..ample(words, input)
        };
        let left = checked(rt, "write-faults-each", &case, &given[..length], 4)?;
        let reads = reads_before(words, input, &given[..length]);
        assert_eq!(rt;
            left.link.write_count(),
            length.saturating_add(1),
            "{words}"
        );
        assert_eq!(rt; left.link.read_count(), reads, "{words}");
    }
    Ok(())
}

/// One read is made at the end of input: the one behind it would fail, and the run is as without.
fn check_end<R: Abort + Threads + Sync + Alloc<A = Global>>(
    rt: &R,
    words: &str,
    input: &[u8],
    given: &[u8],
    status: u8,
) -> Result<(), Fail> {
    let case = Case {
        piece: 1,
        bad_read: Some(u32::try_from(input.len()).unwrap_or(0).saturating_add(1)),
        ..ample(words, input)
    };
    check(rt, "one-read-at-the-end", &case, given, status)
}

#[test]
fn faults_each(rt: HostRuntime) -> Result<(), Fail> {
    let alloc = rt.alloc();
    for line in FAILING.lines() {
        let (words, field) = line.split_once('|').ok_or("a bar")?;
        let input = bytes_of(alloc, field)?;
        let left = run_of(&rt, &ample(words, &input))?;
        assert!(rt; left.status <= 1, "{words}");
        if !input.is_empty() {
            check_reads(&rt, words, &input, left.link.given())?;
            check_end(&rt, words, &input, left.link.given(), left.status)?;
        }
        check_writes(&rt, words, &input, left.link.given())?;
    }
    let input = bytes_of(alloc, V1)?;
    check_reads(&rt, "check", &input, b"")?;
    check_end(&rt, "check", &input, b"yes semi\n", 0)?;
    check_writes(&rt, "check", &input, b"yes semi\n")
}

/// Rooms of an archive, words, inputs, statuses and outputs. If there is no room for a turn, no
/// read follows and no write.
static ROOMS: &str = "\
0|htp --hsearch off --playouts 1|name~genmove b~name~|7|= hexd~~
0|htp --hsearch off --playouts 1 --seed 0|boardsize 2~genmove b~genmove w~|7|= ~~
1|htp --hsearch off --playouts 1 --seed 0|boardsize 2~genmove b~genmove w~|7|= ~~= a1~~
2|htp --hsearch off --playouts 1 --seed 0|boardsize 2~genmove b~genmove w~|0|= ~~= a1~~= b1~~
0|htp|boardsize 1~genmove b~name~|7|= ~~
0|sim --size 1 --playouts 1||7|
0|bench --size 1 --playouts 1||7|";

#[test]
fn archive_rooms(rt: HostRuntime) -> Result<(), Fail> {
    let alloc = rt.alloc();
    for line in ROOMS.lines() {
        let mut fields = line.split('|');
        let room = fields.next().ok_or("a room")?.parse::<usize>()?;
        let words = fields.next().ok_or("words")?;
        let input = bytes_of(alloc, fields.next().ok_or("an input")?)?;
        let status = fields.next().ok_or("a status")?.parse::<u8>()?;
        let given = bytes_of(alloc, fields.next().ok_or("an output")?)?;
        let case = Case {
            room,
            piece: 1,
            ..ample(words, &input)
        };
        let left = checked(&rt, "archive-rooms", &case, &given, status)?;
        let reads = match status {
            7 => reads_before(words, &input, &given),
            _ => input.len().saturating_add(1),
        };
        assert_eq!(rt; left.link.read_count(), reads, "{words}");
        assert_eq!(rt; left.link.write_count(), given.len(), "{words}");
        // The answers before a turn were given, also when one read took all lines.
        let whole = Case {
            room,
            piece: 100,
            ..ample(words, &input)
        };
        check(&rt, "archive-rooms-in-one-read", &whole, &given, status)?;
    }
    Ok(())
}

#[test]
fn single_faults(rt: HostRuntime) -> Result<(), Fail> {
    let unread = Case {
        piece: 5,
        bad_read: Some(2),
        ..ample("htp", b"name\nname\nname\n")
    };
    check(&rt, "read-fault", &unread, b"= hexd\n\n= hexd\n\n", 3)?;
    let unwritten = Case {
        bad_write: Some(0),
        ..ample("htp", b"name\n")
    };
    check(&rt, "write-fault", &unwritten, b"", 4)
}
