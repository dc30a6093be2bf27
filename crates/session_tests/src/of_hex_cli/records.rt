//! Sessions that load records.

use super::runs::{Case, RECORD, ample, check};
use super::tables::check_rows;
use std::alloc::Global;
use std::test::Fail;

static LOADS: &str = "\
load-and-print|htp|loadsgf g.sgf~printsgf~|0|\
    = ~~= (;FF[4]GM[11]SZ[3];B[a2];W[swap-pieces];B[c3])~~
load-refusals|htp|loadsgf h.sgf~loadsgf x~winner~|0|\
    ? cannot load file~~? cannot load file~~= none~~";

#[test]
fn loads(rt: HostRuntime) -> Result<(), Fail> {
    check_rows(&rt, LOADS)?;
    let third = Case {
        bad_fetch: Some(2),
        ..ample("htp", b"loadsgf h.sgf\nloadsgf x\nloadsgf h.sgf\nwinner\n")
    };
    let given = b"? cannot load file\n\n? cannot load file\n\n? read fault\n\n= none\n\n";
    check(&rt, "load-refusals", &third, given, 0)?;
    let first = Case {
        bad_fetch: Some(0),
        ..ample("htp", b"loadsgf g.sgf\nprintsgf\n")
    };
    let given = b"? read fault\n\n= (;FF[4]GM[11]SZ[11])\n\n";
    check(&rt, "load-read-fault", &first, given, 0)?;
    for length in 0..RECORD.len() {
        let case = Case {
            file: &RECORD[..length],
            ..ample("htp", b"loadsgf f\n")
        };
        check(&rt, "load-prefixes", &case, b"? cannot load file\n\n", 0)?;
    }
    Ok(())
}

/// A record of this many bytes, most of them spaces.
fn spaced_record(alloc: Global, length: usize) -> Result<Vec<u8>, Fail> {
    let head = b"(;GM[11]SZ[3]";
    let mut record = head.to_vec(alloc)?;
    for _ in head.len() + 1..length {
        record.push(b' ')?;
    }
    record.push(b')')?;
    Ok(record)
}

#[test]
fn load_longest(rt: HostRuntime) -> Result<(), Fail> {
    for (length, given) in [
        (1_048_576, b"= \n\n".as_slice()),
        (1_048_577, b"? cannot load file\n\n".as_slice()),
    ] {
        let record = spaced_record(rt.alloc(), length)?;
        assert_eq!(rt; record.len(), length);
        let case = Case {
            file: &record,
            ..ample("htp", b"loadsgf f\n")
        };
        check(&rt, "load-longest", &case, given, 0)?;
    }
    Ok(())
}
