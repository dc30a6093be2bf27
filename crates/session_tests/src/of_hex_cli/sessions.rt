//! Sessions without searches, and words that are refused.

use super::runs::{Case, ample, check, run_of};
use super::tables::{bytes_of, check_rows};
use hex_cells::{Size, read_vertex};
use std::test::Fail;

static SESSIONS: &str = "\
empty-input|htp||0|
id-answer|htp|1 protocol_version~|0|=1 2~~
ids|htp|2147483647 name~2147483648 name~007 name~|0|\
    =2147483647 hexd~~? unknown command~~=7 hexd~~
blank-bare-quit|htp|7~# only~~name extra~quit~name~|0|?7 syntax error~~? syntax error~~= ~~
known-commands|htp|known_command undo~known_command Undo~version|0|= true~~= false~~= 1.0~~
play-refusals|htp|play b a1~play w A1~play w l1~play b~name~quit~play b b1~|0|\
    = ~~? illegal move~~? illegal move~~? syntax error~~= hexd~~= ~~
carriage-return|htp|play b a1\r~1 quit~|0|= ~~=1 ~~
line-ends|htp|name\r~\r~ \r~1 version\r~name|0|= hexd~~=1 1.0~~= hexd~~
line-ends|htp|name~\r|0|= hexd~~
byte-order-mark|htp|\u{feff}name~name~|0|? unknown command~~= hexd~~
play-and-show|htp|boardsize 3~\tplay  B A1 # c\r~showboard~|0|\
    = ~~= ~~= ~   a b c~ 1 B . .~  2 . . .~   3 . . .~~
sizes|htp|boardsize 12~boardsize 0~boardsize 5 4~boardsize 5 5~|0|\
    ? unacceptable size~~? unacceptable size~~? unacceptable size~~= ~~
board-of-one|htp|boardsize 1~play b a1~winner~play w a1~genmove w~|0|\
    = ~~= ~~= black~~? illegal move~~? game over~~
swap-undo|htp|boardsize 3~play b a2~play w swap-pieces~showboard~undo~showboard~undo~undo~|0|\
    = ~~= ~~= ~~= ~   a b c~ 1 . W .~  2 . . .~   3 . . .~~= ~~\
    = ~   a b c~ 1 . . .~  2 B . .~   3 . . .~~= ~~? cannot undo~~
illegal-moves|htp|boardsize 3~play w swap-pieces~play b a1~play b swap-pieces~play w b2~\
    play w swap-pieces~play b z9~play b a0~|0|= ~~? illegal move~~= ~~? illegal move~~= ~~\
    ? illegal move~~? illegal move~~? syntax error~~
small-session|htp|boardsize 3~play b a2~undo~name~|0|= ~~= ~~= ~~= hexd~~
first-board|--size=2 htp|showboard~|0|= ~   a b~ 1 . .~  2 . .~~
play-forms|htp --size 3|showboard~play b A1~play BLACK a1~play white c3~showboard~play w a0~\
    play w z9~play red a2~undo~play W Swap-Pieces~showboard~winner now~boardsize 0~|0|\
    = ~   a b c~ 1 . . .~  2 . . .~   3 . . .~~= ~~? illegal move~~= ~~\
    = ~   a b c~ 1 B . .~  2 . . .~   3 . . W~~? syntax error~~? illegal move~~\
    ? syntax error~~= ~~= ~~= ~   a b c~ 1 W . .~  2 . . .~   3 . . .~~\
    ? syntax error~~? unacceptable size~~
arguments|htp|printsgf now~loadsgf~search-report~mustplay~wincert~look-report~mustplay now~\
    genmove~|0|? syntax error~~? syntax error~~? no search~~? no search~~? no certificate~~\
    ? no look~~\
    ? syntax error~~? syntax error~~
largest-board|htp|boardsize 11 11~showboard~quit~|0|= ~~= ~   a b c d e f g h i j k~ \
    1 . . . . . . . . . . .~  \
    2 . . . . . . . . . . .~   \
    3 . . . . . . . . . . .~    \
    4 . . . . . . . . . . .~     \
    5 . . . . . . . . . . .~      \
    6 . . . . . . . . . . .~       \
    7 . . . . . . . . . . .~        \
    8 . . . . . . . . . . .~         \
    9 . . . . . . . . . . .~         \
    10 . . . . . . . . . . .~          \
    11 . . . . . . . . . . .~~= ~~
bad-words||name~|2|
bad-words|htp --workers 0|name~|2|
bad-words|htp htp|name~|2|
bad-words|htp --seed=-1|name~|2|
bad-words|play|name~|2|";

#[test]
fn sessions(rt: HostRuntime) -> Result<(), Fail> {
    check_rows(&rt, SESSIONS)?;
    let silent = Case {
        bad_error: Some(0),
        ..ample("", b"")
    };
    let left = run_of(&rt, &silent)?;
    assert_eq!(rt; left.status, 2, "errors-fault");
    assert!(rt; left.errors.given().is_empty(), "errors-fault");
    Ok(())
}

static WHOLE_INPUT: &str = "name~version~list_commands~boardsize 11 11~play black f6~\
genmove white~undo~undo~quit~";

static WHOLE_FRONT: &str = "= hexd~~= 1.0~~= boardsize~clear_board~genmove~known_command~\
list_commands~loadsgf~look-report~mustplay~name~play~printsgf~protocol_version~quit~search-report~\
showboard~undo~version~wincert~winner~~= ~~= ~~= ";

#[test]
fn whole_session(rt: HostRuntime) -> Result<(), Fail> {
    let alloc = rt.alloc();
    let input = bytes_of(alloc, WHOLE_INPUT)?;
    let left = run_of(
        &rt,
        &ample("htp --hsearch off --playouts 200 --seed 7", &input),
    )?;
    assert_eq!(rt; left.status, 0);
    let front = bytes_of(alloc, WHOLE_FRONT)?;
    let end = b"\n\n= \n\n= \n\n= \n\n".as_slice();
    let vertex = left
        .link
        .given()
        .strip_prefix(front.as_slice())
        .and_then(|rest| rest.strip_suffix(end));
    let cell = read_vertex(vertex.unwrap_or(b""), Size::of(11).ok_or("no size")?);
    assert!(rt; cell.is_some());
    assert!(rt; vertex != Some(b"f6".as_slice()));
    Ok(())
}

/// `name` with this many spaces after it, as a line.
fn push_spaced(line: &mut Vec<u8>, spaces: usize) -> Result<(), Fail> {
    line.extend_from_slice(b"name")?;
    for _ in 0..spaces {
        line.push(b' ')?;
    }
    line.push(b'\n')?;
    Ok(())
}

/// `line-length`: a line of 4,096 bytes, one of 4,097, and a short one.
#[test]
fn line_length(rt: HostRuntime) -> Result<(), Fail> {
    let mut input = Vec::new(rt.alloc());
    push_spaced(&mut input, 4_092)?;
    push_spaced(&mut input, 4_093)?;
    input.extend_from_slice(b"name\n")?;
    let given = b"= hexd\n\n? line too long\n\n= hexd\n\n";
    check(&rt, "line-length", &ample("htp", &input), given, 0)
}
