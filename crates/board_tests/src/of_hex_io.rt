//! What no clause says: that a call succeeds with ample memory, and that the devices are there.

use hex_io::{
    Bytes, DirShelf, ErrLink, File, FileLink, Link, LinkFault, MemLink, MemShelf, Shelf,
    ShelfError, StdLink, Word, give, report,
};
use std::alloc::{AllocError, Global};
use std::convert::AsStr;
use std::fs;
use std::test::Fail;

/// The bytes that one read of at most four moves.
fn next(alloc: Global, link: &mut MemLink) -> Result<Option<Vec<u8>>, AllocError> {
    let mut buf = [0u8; 4];
    match link.read(&mut buf) {
        Ok(count) => Ok(Some(buf[..count].to_vec(alloc)?)),
        Err(LinkFault) => Ok(None),
    }
}

// Six bytes in pieces of three, read number 1 fails and number 4 is past the last.
#[test]
fn reads_in_pieces(rt: HostRuntime) -> Result<(), AllocError> {
    let alloc = rt.alloc();
    let input = b"hexd 1".to_vec(alloc)?;
    let bad = vec![in alloc; 1u32]?;
    let Ok(mut link) = MemLink::make(alloc, input, 3, 0, 4, bad, Vec::new(alloc)) else {
        assert!(rt; false);
        return Ok(());
    };
    let wanted: [Option<&[u8]>; 6] = [
        Some(b"hex".as_slice()),
        None,
        Some(b"d 1".as_slice()),
        Some(b"".as_slice()),
        None,
        None,
    ];
    for want in wanted {
        let got = next(alloc, &mut link)?;
        assert!(rt; got.as_deref() == want);
    }
    Ok(())
}

// Room for five bytes in pieces of three, write number 1 fails.
#[test]
fn writes_in_pieces(rt: HostRuntime) -> Result<(), AllocError> {
    let alloc = rt.alloc();
    let bad = vec![in alloc; 1u32]?;
    let Ok(mut link) = MemLink::make(alloc, Vec::new(alloc), 3, 5, 0, Vec::new(alloc), bad) else {
        assert!(rt; false);
        return Ok(());
    };
    for want in [Ok(3), Err(LinkFault), Ok(2), Err(LinkFault)] {
        assert!(rt; link.write(b"= hexd") == want);
    }
    assert!(rt; link.given() == b"= h= ".as_slice());
    Ok(())
}

// In pieces of two bytes, and write number 2 fails.
#[test]
fn gives_all_or_a_front(rt: HostRuntime) -> Result<(), Fail> {
    let alloc = rt.alloc();
    let bad = vec![in alloc; 2u32]?;
    let mut link = MemLink::make(alloc, Vec::new(alloc), 2, 9, 0, Vec::new(alloc), bad)?;
    assert!(rt; give(&mut link, b"abc") == Ok(()));
    assert!(rt; give(&mut link, b"defg") == Err(LinkFault));
    report(&mut link, b"hi");
    assert!(rt; link.given() == b"abchi".as_slice());
    Ok(())
}

#[test]
fn standard_output_takes_a_line(rt: HostRuntime) {
    assert!(rt; StdLink::new(&rt).write(b"hexd\n") == Ok(5));
}

#[test]
fn standard_error_takes_a_line_and_gives_none(rt: HostRuntime) {
    let mut link = ErrLink::new(&rt);
    assert!(rt; link.write(b"hexd\n") == Ok(5));
    assert!(rt; link.read(&mut [0u8; 4]) == Ok(0));
}

#[test]
fn a_word_lends_its_text(rt: HostRuntime) -> Result<(), AllocError> {
    let word = Word::of(String::from_str(rt.alloc(), "--size=5")?);
    assert!(rt; word.as_str() == "--size=5");
    assert!(rt; AsStr::as_str(&word) == "--size=5");
    Ok(())
}

fn file(alloc: Global, name: &[u8], content: Vec<u8>) -> Result<File, AllocError> {
    Ok(File {
        name: Bytes::of(name.to_vec(alloc)?),
        content: Bytes::of(content),
    })
}

// The first file of a name counts, fetch number 2 fails, and a file is fetched up to 1 MiB.
#[test]
fn fetches_files(rt: HostRuntime) -> Result<(), AllocError> {
    let alloc = rt.alloc();
    let files = vec![in alloc;
        file(alloc, b"a.sgf", b"(;)".to_vec(alloc)?)?,
        file(alloc, b"a.sgf", b"x".to_vec(alloc)?)?,
        file(alloc, b"longest", vec![in alloc; b' '; 1_048_576]?)?,
        file(alloc, b"longer", vec![in alloc; b' '; 1_048_577]?)?,
    ]?;
    let Ok(mut shelf) = MemShelf::make(alloc, files, vec![in alloc; 2u32]?) else {
        assert!(rt; false);
        return Ok(());
    };
    let wanted: [(&str, Result<Option<usize>, ShelfError>); 6] = [
        ("a.sgf", Ok(Some(3))),
        ("A.sgf", Ok(None)),
        ("a.sgf", Err(ShelfError::Fault)),
        ("longest", Ok(Some(1_048_576))),
        ("longer", Err(ShelfError::TooLong)),
        ("a.sgf", Ok(Some(3))),
    ];
    for (name, want) in wanted {
        let got = shelf
            .fetch(alloc, name)
            .map(|found| found.map(|bytes| bytes.len()));
        assert!(rt; got == want);
    }
    Ok(())
}

// A file is fetched as it was written, also by its path alone.
#[test]
fn a_written_file_is_fetched(rt: HostRuntime) -> Result<(), Fail> {
    let record = b"(;FF[4]GM[11]SZ[3];B[a2])\n";
    fs::write(&rt, "fetched.sgf", record.as_slice())?;
    let mut shelf = DirShelf::new(&rt);
    let found = shelf.fetch(rt.alloc(), "fetched.sgf")?;
    assert!(rt; found.as_deref() == Some(record.as_slice()));
    fs::remove_file(&rt, "fetched.sgf")?;
    assert!(rt; shelf.fetch(rt.alloc(), "fetched.sgf") == Ok(None));
    Ok(())
}

// A file is fetched up to 1 MiB.
#[test]
fn a_file_is_fetched_up_to_its_limit(rt: HostRuntime) -> Result<(), Fail> {
    let alloc = rt.alloc();
    let mut shelf = DirShelf::new(&rt);
    for (length, want) in [
        (1_048_576, Ok(Some(1_048_576))),
        (1_048_577, Err(ShelfError::TooLong)),
    ] {
        fs::write(&rt, "long", vec![in alloc; b' '; length]?)?;
        let got = shelf
            .fetch(alloc, "long")
            .map(|found| found.map(|bytes| bytes.len()));
        assert!(rt; got == want);
    }
    fs::remove_file(&rt, "long")?;
    Ok(())
}

/// A name of so many letters.
fn long_name(alloc: Global, length: usize) -> Result<String, AllocError> {
    let mut name = String::new(alloc);
    for _ in 0..length {
        name.push('x')?;
    }
    Ok(name)
}

// Paths without a file, the longest name among them, and what is there and no regular file: a
// directory, a device that never ends, one that is empty, and one that keeps its reader waiting. A
// path behind a file, and a name too long for one, are read faults too.
#[test]
fn the_system_has_files(rt: HostRuntime) -> Result<(), Fail> {
    let alloc = rt.alloc();
    let mut shelf = DirShelf::new(&rt);
    let (longest, longer) = (long_name(alloc, 255)?, long_name(alloc, 256)?);
    for name in ["no such file", "no such folder/file", longest.as_str()] {
        assert!(rt; shelf.fetch(alloc, name) == Ok(None));
    }
    let faults = [
        "/",
        "/dev/zero",
        "/dev/null",
        "/dev/ptmx",
        "/dev/null/file",
        longer.as_str(),
    ];
    for name in faults {
        assert!(rt; shelf.fetch(alloc, name) == Err(ShelfError::Fault));
    }
    Ok(())
}

/// The link over a file of this name.
fn file_link<'a>(rt: &'a HostRuntime, name: &str) -> Result<FileLink<'a>, AllocError> {
    Ok(FileLink::new(rt, Word::of(String::from_str(rt.alloc(), name)?)))
}

// A file is made at the first write, and written from its start over what stood there. It gives
// nothing to read.
#[test]
fn a_file_holds_what_its_link_was_given(rt: HostRuntime) -> Result<(), Fail> {
    let alloc = rt.alloc();
    fs::write(&rt, "written", b"an older text".as_slice())?;
    let mut shelf = DirShelf::new(&rt);
    let mut link = file_link(&rt, "written")?;
    assert!(rt; link.read(&mut [0u8; 4]) == Ok(0));
    let found = shelf.fetch(alloc, "written")?;
    assert!(rt; found.as_deref() == Some(b"an older text".as_slice()));
    assert!(rt; give(&mut link, b"two ") == Ok(()));
    assert!(rt; give(&mut link, b"parts") == Ok(()));
    let found = shelf.fetch(alloc, "written")?;
    assert!(rt; found.as_deref() == Some(b"two parts".as_slice()));
    fs::remove_file(&rt, "written")?;
    let _unused = file_link(&rt, "unwritten")?;
    assert!(rt; shelf.fetch(alloc, "unwritten") == Ok(None));
    let mut nowhere = file_link(&rt, "no such directory/written")?;
    for _ in 0..2 {
        assert!(rt; give(&mut nowhere, b"x") == Err(LinkFault));
    }
    Ok(())
}
