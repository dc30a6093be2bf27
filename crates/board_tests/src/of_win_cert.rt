//! What no clause says: the certificates V1, V2 and V3, texts that are none, and ample memory.

use std::alloc::Global;
use std::rt::HostRuntime;
use std::test::Fail;
use win_cert::{CertError, LATEST_VERSION, is_writable, raise, read, write};

const V1: &[u8] = b"hexcert 1\nsize 2\nplayer black\nblack\nwhite\n\
    adj a2 a1\nadj a1 edge1\nadj a2 b1\nadj b1 edge1\n\
    key 0 1\nkey 2 3\nor 4 5\nadj a2 edge2\nkey 6 7\nsemi 8\n";

const V2: &[u8] = b"hexcert 1\nsize 3\nplayer black\nblack\nwhite\n\
    adj a2 a1\nadj a1 edge1\nadj a2 b1\nadj b1 edge1\n\
    key 0 1\nkey 2 3\nor 4 5\nadj b2 b1\nadj b2 c1\nadj c1 edge1\n\
    key 7 3\nkey 8 9\nor 10 11\nand 6 12\nfull 13\n";

const V3: &[u8] = b"hexcert 2\nsize 2\nplayer black\nblack\nwhite\n\
    put a1 a2\ndone\nput b1 a2\ndone\nput a2\n\
    move a1 1\nmove b1 3\ncases 5 6\nput\nmove a2 7\nsemi 9\n";

// V1 in version 3, with an `or` of four.
const MANY: &[u8] = b"hexcert 3\nsize 2\nplayer black\nblack\nwhite\n\
    adj a2 a1\nadj a1 edge1\nadj a2 b1\nadj b1 edge1\n\
    key 0 1\nkey 2 3\nor 4 5 4 5\nadj a2 edge2\nkey 6 7\nsemi 8\n";

// A head of version 3.
const THIRD_HEAD: &[u8] = b"hexcert 3\nsize 2\nplayer black\nblack\nwhite\n";

// The five lines of a head of version 2 with stones.
const HEAD: &[u8] = b"hexcert 2\nsize 11\nplayer white\nblack a1 k11\nwhite b1 a2\n";

// The text that is written of what is read, raised first or not.
fn rewritten(alloc: Global, text: &[u8], raised: bool) -> Result<Vec<u8>, Fail> {
    let Ok(cert) = read(alloc, text) else {
        return Err("a certificate".into());
    };
    let Ok(new) = raise(alloc, &cert) else {
        return Err("memory".into());
    };
    let Ok(bytes) = write(alloc, if raised { &new } else { &cert }) else {
        return Err("memory".into());
    };
    Ok(bytes.as_slice().to_vec(alloc)?)
}

// The line at which a text is refused.
fn refused_at(alloc: Global, text: &[u8]) -> Option<u32> {
    match read(alloc, text) {
        Err(CertError::NotCert { line }) => Some(line),
        _ => None,
    }
}

#[test]
fn read_and_written(rt: HostRuntime) -> Result<(), Fail> {
    for text in [V1, V2, V3, MANY] {
        assert_eq!(rt; rewritten(rt.alloc(), text, false)?.as_slice(), text);
    }
    let raised = rewritten(rt.alloc(), V1, true)?;
    assert_eq!(rt; raised.len(), V1.len());
    assert!(rt; raised.as_slice().starts_with(b"hexcert 2\n"));
    assert!(rt; raised.as_slice().ends_with(&V1[10..]));
    assert_eq!(rt; rewritten(rt.alloc(), MANY, true)?.as_slice(), MANY);
    assert_eq!(rt; LATEST_VERSION, 4);
    Ok(())
}

// An `or` of four can be written from version 3 on.
#[test]
fn written_from_one_version_on(rt: HostRuntime) -> Result<(), Fail> {
    let Ok(mut cert) = read(rt.alloc(), MANY) else {
        return Err("a certificate".into());
    };
    for (version, can_be) in [(2, false), (3, true), (LATEST_VERSION, true), (5, false)] {
        cert.version = version;
        assert_eq!(rt; is_writable(&cert), can_be);
    }
    Ok(())
}

#[test]
fn each_prefix_is_refused_after_its_lines(rt: HostRuntime) -> Result<(), Fail> {
    let mut line = 1;
    for end in 0..V1.len() {
        assert_eq!(rt; refused_at(rt.alloc(), &V1[..end]), Some(line));
        if V1[end] == b'\n' {
            line = line.saturating_add(1);
        }
    }
    Ok(())
}

#[test]
fn refused_at_their_lines(rt: HostRuntime) -> Result<(), Fail> {
    let cases: [(&[u8], &[u8], Option<u32>); 21] = [
        (V1, b"\n", Some(16)),
        (V1, b"x", Some(16)),
        (b"hexcert 5\n", b"", Some(1)),
        (b"hexcert 01\n", b"", Some(1)),
        (b"hexcert 1\nsize 12\n", b"", Some(2)),
        (b"hexcert 1\nsize 0\n", b"", Some(2)),
        (b"hexcert 1\nsize 3\nplayer Black\n", b"", Some(3)),
        (
            b"hexcert 1\nsize 3\nplayer black\nblack b1 a1\n",
            b"",
            Some(4),
        ),
        (b"hexcert 1\nsize 3\nplayer black\nblack a4\n", b"", Some(4)),
        (
            b"hexcert 1\nsize 3\nplayer black\nblack a1\nwhite a1\n",
            b"",
            Some(5),
        ),
        (HEAD, b"full 0\n", None),
        (HEAD, b"adj A1 edge1\nfull 0\n", Some(6)),
        (HEAD, b"adj a1  edge1\nfull 0\n", Some(6)),
        (HEAD, b"and 0 01\nfull 0\n", Some(6)),
        (HEAD, b"and 0 1000000\nfull 0\n", Some(6)),
        (HEAD, b"put b1 a1\nfull 0\n", Some(6)),
        (HEAD, b"done\ncases 0\nfull 0\n", Some(7)),
        (HEAD, b"done \nfull 0\n", Some(6)),
        (HEAD, b"or 0 1 2 3\nfull 0\n", Some(6)),
        (THIRD_HEAD, b"done\nor 0 1 2 3\nfull 0\n", None),
        (THIRD_HEAD, b"done\nor 0\nfull 0\n", Some(7)),
    ];
    for (head, rest, line) in cases {
        let mut text = head.to_vec(rt.alloc())?;
        text.extend_from_slice(rest)?;
        assert_eq!(rt; refused_at(rt.alloc(), &text), line);
    }
    let mut text = b"hexcert 1".to_vec(rt.alloc())?;
    text.extend_from_slice(&V3[9..])?;
    assert_eq!(rt; refused_at(rt.alloc(), &text), Some(6));
    Ok(())
}

#[test]
fn as_many_ways_as_there_may_be(rt: HostRuntime) -> Result<(), Fail> {
    for (more, line) in [(125, None), (126, Some(6))] {
        let mut text = THIRD_HEAD.to_vec(rt.alloc())?;
        text.extend_from_slice(b"or 0 1")?;
        for _ in 0..more {
            text.extend_from_slice(b" 2")?;
        }
        text.extend_from_slice(b"\nfull 0\n")?;
        assert_eq!(rt; refused_at(rt.alloc(), &text), line);
    }
    Ok(())
}

#[test]
fn a_line_too_many(rt: HostRuntime) -> Result<(), Fail> {
    let mut text = V1[..42].to_vec(rt.alloc())?;
    for _ in 0..200_000 {
        text.extend_from_slice(b"adj a1 edge1\n")?;
    }
    let length = text.len();
    text.extend_from_slice(b"full 0\n")?;
    assert!(rt; read(rt.alloc(), &text).is_ok());
    text.truncate(length);
    text.extend_from_slice(b"adj a1 edge1\nx")?;
    assert!(rt; matches!(read(rt.alloc(), &text), Err(CertError::TooManyLines)));
    Ok(())
}
