//! The format's own examples, with ample memory.

use sgf_tree::{SgfError, parse, print};
use std::alloc::Global;
use std::test::Fail;

/// The text that is printed of what the bytes are.
fn reprinted(alloc: Global, bytes: &[u8]) -> Result<Vec<u8>, SgfError> {
    let collection = parse(alloc, bytes)?;
    let Ok(text) = print(alloc, &collection) else {
        return Err(SgfError::Memory);
    };
    text.as_slice().to_vec(alloc).map_err(|_| SgfError::Memory)
}

fn refusal(alloc: Global, bytes: &[u8]) -> Option<SgfError> {
    parse(alloc, bytes).err()
}

/// The bytes `open` so many times, and then the bytes `close` so many times.
fn nested(
    alloc: Global,
    open: &[u8],
    opens: usize,
    close: &[u8],
    closes: usize,
) -> Result<Vec<u8>, Fail> {
    let mut text = Vec::new(alloc);
    for _ in 0..opens {
        text.extend_from_slice(open)?;
    }
    for _ in 0..closes {
        text.extend_from_slice(close)?;
    }
    Ok(text)
}

#[test]
fn refused_at_its_place(rt: HostRuntime) -> Result<(), Fail> {
    let cases: [(&[u8], usize); 15] = [
        (b"", 0),
        (b"(;GM[11]", 8),
        (b"(;GM[11])x", 9),
        (b"(;G)", 3),
        (b"( )", 2),
        (b" ", 1),
        (b"x(;)", 0),
        (b"(;g[1])", 2),
        (b"(;G M[1])", 4),
        (b"(;A)", 3),
        (b"(;A[1]", 6),
        (b"(;A[\\", 5),
        (b"(;A[]])", 5),
        (b"(;)(", 4),
        (b"(;A[1]\0)", 6),
    ];
    for (bytes, at) in cases {
        assert_eq!(rt;
            refusal(rt.alloc(), bytes),
            Some(SgfError::NotSgf { at }),
            "at {at}"
        );
    }
    Ok(())
}

#[test]
fn read_and_printed(rt: HostRuntime) -> Result<(), Fail> {
    let cases: [(&[u8], &[u8]); 6] = [
        (b"(;)", b"(;)"),
        (b"(;A[((((])", b"(;A[((((])"),
        (b" ( ; C [a\\\nb] [] ( ; ) ) (;)", b"(;C[a\nb][](;))(;)"),
        (b"(;A[\\(\\[x])", b"(;A[([x])"),
        (b"(;A[\\]\\\\])", b"(;A[\\]\\\\])"),
        (
            b"(;FF[4]GM[11]SZ[3]AP[Editor:0.9]C[a\\]b];B[a2];W[swap-pieces];B[c3])",
            b"(;FF[4]GM[11]SZ[3]AP[Editor:0.9]C[a\\]b];B[a2];W[swap-pieces];B[c3])",
        ),
    ];
    for (bytes, want) in cases {
        let text = reprinted(rt.alloc(), bytes)?;
        assert_eq!(rt; text.as_slice(), want);
    }
    Ok(())
}

#[test]
fn each_prefix_is_refused_at_its_end(rt: HostRuntime) -> Result<(), Fail> {
    let text = b"(;FF[4]GM[11]SZ[3]AP[Editor:0.9]C[a\\]b];B[a2];W[swap-pieces];B[c3])";
    assert_eq!(rt; text.len(), 67);
    for at in 0..67 {
        assert_eq!(rt;
            refusal(rt.alloc(), &text[..at]),
            Some(SgfError::NotSgf { at })
        );
    }
    Ok(())
}

#[test]
fn sixty_four_deep(rt: HostRuntime) -> Result<(), Fail> {
    let alloc = rt.alloc();
    let whole = nested(alloc, b"(;", 64, b")", 64)?;
    assert_eq!(rt; reprinted(alloc, &whole)?.as_slice(), whole.as_slice());
    let more = nested(alloc, b"(;", 65, b")", 0)?;
    assert_eq!(rt; refusal(alloc, &more), Some(SgfError::TooDeep));
    let bare = nested(alloc, b"(;", 64, b"(", 1)?;
    assert_eq!(rt; refusal(alloc, &bare), Some(SgfError::TooDeep));
    let other = nested(alloc, b"(;", 64, b"x", 1)?;
    assert_eq!(rt; refusal(alloc, &other), Some(SgfError::NotSgf { at: 128 }));
    Ok(())
}
