//! Lines and answers with values from the protocol's rules, and calls with ample memory.

use htp_line::{Parsed, Splitter, id_text, push_failure, push_success, read_line};
use std::alloc::{AllocError, Global};

/// An id or `-`, and the words, with one space between them; blank is `blank`.
fn shown(alloc: Global, parsed: &Parsed) -> Result<Vec<u8>, AllocError> {
    let mut out = Vec::new(alloc);
    match parsed {
        Parsed::Blank => out.extend_from_slice(b"blank")?,
        Parsed::Bare(id) => out.extend_from_slice(id.to_string(alloc)?.as_bytes())?,
        Parsed::Request(request) => {
            match request.id {
                None => out.push(b'-')?,
                Some(id) => out.extend_from_slice(id.to_string(alloc)?.as_bytes())?,
            }
            out.push(b' ')?;
            out.extend_from_slice(request.name.as_slice())?;
            for word in request.args.as_slice() {
                out.push(b' ')?;
                out.extend_from_slice(word.as_slice())?;
            }
        }
    }
    Ok(out)
}

#[test]
fn reads_lines(rt: HostRuntime) -> Result<(), AllocError> {
    let alloc = rt.alloc();
    let rows: [(&[u8], &[u8]); 17] = [
        (
            b"1 protocol_version".as_slice(),
            b"1 protocol_version".as_slice(),
        ),
        (b"\tplay  B A1 # c".as_slice(), b"- play B A1".as_slice()),
        (b"2147483647 name".as_slice(), b"2147483647 name".as_slice()),
        (
            b"2147483648 name".as_slice(),
            b"- 2147483648 name".as_slice(),
        ),
        (b"007 name".as_slice(), b"7 name".as_slice()),
        (
            b"00000000007 name".as_slice(),
            b"- 00000000007 name".as_slice(),
        ),
        (b"+7 name".as_slice(), b"- +7 name".as_slice()),
        (b"7".as_slice(), b"7".as_slice()),
        (b"7 # name".as_slice(), b"7".as_slice()),
        (b"# only".as_slice(), b"blank".as_slice()),
        (b"".as_slice(), b"blank".as_slice()),
        (b" \t \r".as_slice(), b"blank".as_slice()),
        (b"name extra".as_slice(), b"- name extra".as_slice()),
        (b"play b a1\r".as_slice(), b"- play b a1".as_slice()),
        (b"na\x7fm\x00e#x".as_slice(), b"- name".as_slice()),
        (b"play#b a1".as_slice(), b"- play".as_slice()),
        (b"1 2 3".as_slice(), b"1 2 3".as_slice()),
    ];
    for (raw, want) in rows {
        assert!(rt; raw.len() <= 4096);
        let Ok(parsed) = read_line(alloc, raw) else {
            return Err(AllocError);
        };
        let got = shown(alloc, &parsed)?;
        assert!(rt; got.as_slice() == want);
    }
    Ok(())
}

/// A raw line and a bar; `long` if it is too long.
fn push_line(out: &mut Vec<u8>, line: Option<&[u8]>) -> Result<(), AllocError> {
    out.extend_from_slice(line.unwrap_or(b"long"))?;
    out.push(b'|')?;
    Ok(())
}

/// The raw lines of a stream that comes in pieces of this length, each with a bar behind it; a line
/// that is too long is `long`.
fn cut(alloc: Global, stream: &[u8], length: usize) -> Result<Vec<u8>, AllocError> {
    let mut out = Vec::new(alloc);
    let Ok(mut splitter) = Splitter::make(alloc) else {
        return Err(AllocError);
    };
    let mut rest = stream;
    for _ in 0..u64::MAX {
        let piece = &rest[..length.min(rest.len())];
        let fed = splitter.push(piece);
        if fed.ended {
            push_line(&mut out, splitter.line())?;
        }
        rest = &rest[fed.used..];
        if rest.is_empty() {
            break;
        }
    }
    if splitter.finish() {
        push_line(&mut out, splitter.line())?;
    }
    Ok(out)
}

// However the stream is cut, the lines are the same.
#[test]
fn cuts_a_stream(rt: HostRuntime) -> Result<(), AllocError> {
    let alloc = rt.alloc();
    let stream = b"boardsize 3\n\tplay  B A1 # c\r\n\nshowboard\nversion";
    for length in 1..=stream.len() {
        let got = cut(alloc, stream, length)?;
        assert!(rt;
            got.as_slice() == b"boardsize 3|\tplay  B A1 # c\r||showboard|version|".as_slice()
        );
    }
    assert!(rt; cut(alloc, b"name\n", 3)?.as_slice() == b"name|".as_slice());
    assert!(rt; cut(alloc, b"", 3)?.as_slice() == b"".as_slice());
    Ok(())
}

// A line of 4,096 bytes is kept, one of 4,097 is not, and the next line is kept again.
#[test]
fn keeps_lines_up_to_the_limit(rt: HostRuntime) -> Result<(), AllocError> {
    let alloc = rt.alloc();
    let mut stream = Vec::new(alloc);
    let mut want = Vec::new(alloc);
    for spaces in [4092usize, 4093] {
        let blank = vec![in alloc; b' '; spaces]?;
        stream.extend_from_slice(b"name")?;
        stream.extend_from_slice(&blank)?;
        stream.push(b'\n')?;
    }
    stream.extend_from_slice(b"name\n")?;
    want.extend_from_slice(b"name")?;
    want.extend_from_slice(&vec![in alloc; b' '; 4092]?)?;
    want.extend_from_slice(b"|long|name|")?;
    for length in [1usize, 7, 1000, 4096, 4097, 8200] {
        let got = cut(alloc, &stream, length)?;
        assert!(rt; got == want);
    }
    Ok(())
}

#[test]
fn writes_answers(rt: HostRuntime) -> Result<(), AllocError> {
    let alloc = rt.alloc();
    let successes: [(Option<u32>, &[u8], &[u8]); 4] = [
        (None, b"hexd".as_slice(), b"= hexd\n\n".as_slice()),
        (Some(1), b"2".as_slice(), b"=1 2\n\n".as_slice()),
        (
            Some(2147483647),
            b"hexd".as_slice(),
            b"=2147483647 hexd\n\n".as_slice(),
        ),
        (Some(0), b"".as_slice(), b"=0 \n\n".as_slice()),
    ];
    for (id, text, want) in successes {
        let mut got = Vec::new(alloc);
        let Ok(id) = id_text(alloc, id) else {
            return Err(AllocError);
        };
        assert!(rt; push_success(&mut got, &id, text).is_ok());
        assert!(rt; got.as_slice() == want);
    }
    let failures: [(Option<u32>, &[u8], &[u8]); 2] = [
        (
            Some(7),
            b"syntax error".as_slice(),
            b"?7 syntax error\n\n".as_slice(),
        ),
        (
            None,
            b"line too long".as_slice(),
            b"? line too long\n\n".as_slice(),
        ),
    ];
    for (id, text, want) in failures {
        let mut got = Vec::new(alloc);
        let Ok(id) = id_text(alloc, id) else {
            return Err(AllocError);
        };
        assert!(rt; push_failure(&mut got, &id, text).is_ok());
        assert!(rt; got.as_slice() == want);
    }
    Ok(())
}
