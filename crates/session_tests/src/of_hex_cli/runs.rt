//! A run over devices in memory, and tables of runs.

use hex_cli::run;
use hex_devices::Devices;
use hex_io::{Bytes, File, MemLink, MemShelf, Word};
use hex_plan::MemArchive;
use hexd_args::CommandLine;
use search_team::{Gate, OpenGate};
use std::alloc::Global;
use std::process::Abort;
use std::test::Fail;
use std::thread::Threads;

/// A record of a game, which the shelf of each run has under the name `g.sgf`. Under `h.sgf` it has
/// the record without its last byte.
pub const RECORD: &[u8] = b"(;FF[4]GM[11]SZ[3]AP[Editor:0.9]C[a\\]b];B[a2];W[swap-pieces];B[c3])";

/// What a run is made over: words with one space between two, an input, and the content of the file
/// `f`. Then the most bytes of a read or a write, the numbers of the calls that fail, and how many
/// turns the archive holds.
#[derive(Clone, Copy)]
pub struct Case<'a> {
    pub words: &'a str,
    pub input: &'a [u8],
    pub file: &'a [u8],
    pub piece: usize,
    pub bad_read: Option<u32>,
    pub bad_write: Option<u32>,
    pub bad_error: Option<u32>,
    pub bad_fetch: Option<u32>,
    pub room: usize,
}

/// A run in which nothing fails.
pub(super) const fn ample<'a>(words: &'a str, input: &'a [u8]) -> Case<'a> {
    Case {
        words,
        input,
        file: b"",
        piece: 1_000,
        bad_read: None,
        bad_write: None,
        bad_error: None,
        bad_fetch: None,
        room: 4,
    }
}

/// What a run left.
#[derive(Drop)]
pub struct RunResult {
    pub status: u8,
    pub link: MemLink,
    pub errors: MemLink,
    pub archive: MemArchive,
}

/// The command line of these words, with one space between two; an empty text has none.
pub(super) fn read_line(alloc: Global, text: &str) -> Result<CommandLine, Fail> {
    let mut words = Vec::new(alloc);
    if !text.is_empty() {
        for word in text.split(' ') {
            words.push(Word::of(String::from_str(alloc, word)?))?;
        }
    }
    Ok(CommandLine::read(alloc, words)?)
}

fn number_list(alloc: Global, number: Option<u32>) -> Result<Vec<u32>, Fail> {
    let mut numbers = Vec::new(alloc);
    if let Some(number) = number {
        numbers.push(number)?;
    }
    Ok(numbers)
}

/// A link over this input.
pub(super) fn link_over(
    alloc: Global,
    input: &[u8],
    piece: usize,
    bad_read: Option<u32>,
    bad_write: Option<u32>,
) -> Result<MemLink, Fail> {
    let input = input.to_vec(alloc)?;
    let reads = number_list(alloc, bad_read)?;
    let writes = number_list(alloc, bad_write)?;
    Ok(MemLink::make(alloc, input, piece.max(1), 100_000, 200_000, reads, writes)?)
}

fn file_of(alloc: Global, name: &[u8], content: &[u8]) -> Result<File, Fail> {
    Ok(File {
        name: Bytes::of(name.to_vec(alloc)?),
        content: Bytes::of(content.to_vec(alloc)?),
    })
}

/// The shelf, with this content of the file `f`.
pub(super) fn shelf_with(
    alloc: Global,
    file: &[u8],
    bad_fetch: Option<u32>,
) -> Result<MemShelf, Fail> {
    let mut files = Vec::new(alloc);
    files.push(file_of(alloc, b"g.sgf", RECORD)?)?;
    files.push(file_of(alloc, b"h.sgf", RECORD.split_at(66).0)?)?;
    files.push(file_of(alloc, b"f", file)?)?;
    Ok(MemShelf::make(alloc, files, number_list(alloc, bad_fetch)?)?)
}

/// The run of a case, with this gate.
pub(super) fn run_at<R: Threads + Sync + Alloc<A = Global>, G: Gate + Sync>(
    rt: &R,
    case: &Case,
    gate: &G,
) -> Result<RunResult, Fail> {
    let alloc = rt.alloc();
    let line = read_line(alloc, case.words)?;
    let mut link = link_over(alloc, case.input, case.piece, case.bad_read, case.bad_write)?;
    let mut errors = link_over(alloc, b"", 3, None, case.bad_error)?;
    let mut shelf = shelf_with(alloc, case.file, case.bad_fetch)?;
    let mut archive = MemArchive::make(alloc, case.room)?;
    let mut devices: Devices<'_, '_, '_, '_, (_, _, _, _, _)> = Devices {
        link: &mut link,
        shelf: &mut shelf,
        archive: &mut archive,
        rt,
        gate,
    };
    let status = run(alloc, &line, &mut devices, &mut errors);
    Ok(RunResult {
        status,
        link,
        errors,
        archive,
    })
}

/// The run of a case.
pub(super) fn run_of<R: Threads + Sync + Alloc<A = Global>>(
    rt: &R,
    case: &Case,
) -> Result<RunResult, Fail> {
    run_at(rt, case, &OpenGate)
}

/// The line that a status gives to the errors.
pub(super) fn line_of(status: u8) -> &'static [u8] {
    match status {
        2 => b"hexd: usage\n",
        3 => b"hexd: read fault\n",
        5 => b"hexd: out of memory\n",
        6 => b"hexd: input too long\n",
        7 => b"hexd: archive fault\n",
        _ => b"",
    }
}

/// The run of the case ends with this status and its line, and has given these bytes. It is what is
/// left.
pub(super) fn checked<R: Abort + Threads + Sync + Alloc<A = Global>>(
    rt: &R,
    name: &str,
    case: &Case,
    given: &[u8],
    status: u8,
) -> Result<RunResult, Fail> {
    let left = run_of(rt, case)?;
    assert_eq!(rt; left.status, status, "{name}");
    assert_eq!(rt; left.link.given(), given, "{name}");
    assert_eq!(rt; left.errors.given(), line_of(status), "{name}");
    Ok(left)
}

/// The same, if no more is asked of it.
pub(super) fn check<R: Abort + Threads + Sync + Alloc<A = Global>>(
    rt: &R,
    name: &str,
    case: &Case,
    given: &[u8],
    status: u8,
) -> Result<(), Fail> {
    let _left = checked(rt, name, case, given, status)?;
    Ok(())
}
