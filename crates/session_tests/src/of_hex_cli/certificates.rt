//! Certificates and traces: the modes that take their whole input, and a session's certificate.

use super::runs::{ample, check, run_of};
use super::tables::{bytes_of, check_rows};
use std::alloc::Global;
use std::test::Fail;

/// A certificate of the empty board of size 2, for Black.
pub static V1: &str = "hexcert 1~size 2~player black~black~white~adj a2 a1~adj a1 edge1~\
adj a2 b1~adj b1 edge1~key 0 1~key 2 3~or 4 5~adj a2 edge2~key 6 7~semi 8~";

static INPUTS: &str = "\
check-nothing|check||1|not a certificate at line 1~
migrate-nothing|migrate||1|not a certificate at line 1~
line-ends|check|hexcert 1\r~|1|not a certificate at line 1~
line-ends|migrate|hexcert 1~size 2\r~|1|not a certificate at line 2~
line-ends|solve|\r~(;GM[11]\r~SZ[1];B[a1])\r~|0|over black~
migrate-version-3|migrate|hexcert 3~size 1~player black~black~white~done~semi 0~|0|\
hexcert 3~size 1~player black~black~white~done~semi 0~
byte-order-mark|check|\u{feff}hexcert 1~|1|not a certificate at line 1~
byte-order-mark|migrate|\u{feff}hexcert 1~|1|not a certificate at line 1~
byte-order-mark|solve|\u{feff}(;GM[11]SZ[1];B[a1])|1|not a game~
byte-order-mark|audit|\u{feff}|1|no 0 1~
audit-yes|audit||0|yes 0~
audit-no-trace|audit|HEXTREE2|1|no 0 1~";

#[test]
fn whole_inputs(rt: HostRuntime) -> Result<(), Fail> {
    let alloc = rt.alloc();
    check_rows(&rt, INPUTS)?;
    let first = bytes_of(alloc, V1)?;
    check(&rt, "check-v1", &ample("check", &first), b"yes semi\n", 0)?;
    let mut latest = first.as_slice().to_vec(alloc)?;
    if let Some(version) = latest.get_mut(8) {
        *version = b'2';
    }
    check(&rt, "migrate-v1", &ample("migrate", &first), &latest, 0)?;
    check(
        &rt,
        "migrate-v1",
        &ample("check", &latest),
        b"yes semi\n",
        0,
    )?;
    for length in 0..first.len() {
        let front = &first[..length];
        let feeds = front.iter().filter(|byte| **byte == b'\n').count();
        let given = format!(in alloc; "not a certificate at line {}\n", feeds.saturating_add(1))?;
        check(
            &rt,
            "check-prefixes",
            &ample("check", front),
            given.as_bytes(),
            1,
        )?;
    }
    Ok(())
}

/// A certificate's text with so many equal lines.
fn long_certificate(alloc: Global, lines: usize) -> Result<Vec<u8>, Fail> {
    let mut text = b"hexcert 1\nsize 2\nplayer black\nblack\nwhite\n".to_vec(alloc)?;
    for _ in 0..lines {
        text.extend_from_slice(b"adj a1 edge1\n")?;
    }
    text.extend_from_slice(b"full 0\n")?;
    Ok(text)
}

#[test]
fn longest_certificates(rt: HostRuntime) -> Result<(), Fail> {
    let longest = long_certificate(rt.alloc(), 200_000)?;
    check(
        &rt,
        "check-longest",
        &ample("check", &longest),
        b"no 200000 10\n",
        1,
    )?;
    let longer = long_certificate(rt.alloc(), 200_001)?;
    check(
        &rt,
        "check-too-long",
        &ample("check", &longer),
        b"too many lines\n",
        1,
    )
}

/// `first-certificate`: what `wincert` gives after Black's first move is a certificate of the empty
/// board.
#[test]
fn first_certificate(rt: HostRuntime) -> Result<(), Fail> {
    let left = run_of(&rt, &ample("htp", b"boardsize 2\ngenmove b\nwincert\n"))?;
    assert_eq!(rt; left.status, 0);
    let given = left.link.given();
    let by_a2 = given.strip_prefix(b"= \n\n= a2\n\n= ".as_slice());
    let by_b1 = given.strip_prefix(b"= \n\n= b1\n\n= ".as_slice());
    let text = by_a2.or(by_b1).ok_or("a move")?;
    // Of the two line feeds behind the answer one is the certificate's own.
    let certificate = text.strip_suffix(b"\n".as_slice()).ok_or("a line feed")?;
    assert!(rt; certificate.starts_with(b"hexcert 1\nsize 2\nplayer black\nblack\nwhite\n"));
    check(
        &rt,
        "first-certificate",
        &ample("check", certificate),
        b"yes semi\n",
        0,
    )
}
