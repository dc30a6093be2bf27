//! The longest input that a run answers, and one of a byte more.

ghost use Rattle.std.specs.Prelude.{None};

use super::runs::{line_of, link_over, read_line, shelf_with};
use hex_cli::run;
use hex_devices::Devices;
use hex_io::{Link, LinkFault, MemLink};
use hex_plan::NoArchive;
use search_team::OpenGate;
use std::alloc::Global;
use std::process::Abort;
use std::test::Fail;
use std::thread::Threads;

/// Line feeds without memory, and how many reads were answered at their end.
#[derive(Drop)]
struct Feeds {
    left: usize,
    ends: usize,
}

impl Link for Feeds {
    ghost told = { λ _. None };

    ghost read_faults = { λ _. 0 };

    ghost write_faults = { λ _. 0 };

    fn read(&mut self, buf: &mut [u8]) -> Result<usize, LinkFault> {
        let count = self.left.min(buf.len());
        buf[..count].fill(b'\n');
        self.left -= count;
        if count == 0 {
            self.ends = self.ends.saturating_add(1);
        }
        Ok(count)
    }

    fn write(&mut self, bytes: &[u8]) -> Result<usize, LinkFault> {
        Ok(bytes.len())
    }
}

/// What a run over so many line feeds leaves: its status, the errors, and how many reads were
/// answered at the end of input.
fn run_feeds<R: Threads + Sync + Alloc<A = Global>>(
    rt: &R,
    mode: &str,
    length: usize,
) -> Result<(u8, MemLink, usize), Fail> {
    let alloc = rt.alloc();
    let line = read_line(alloc, mode)?;
    let mut link = Feeds {
        left: length,
        ends: 0,
    };
    let mut errors = link_over(alloc, b"", 100, None, None)?;
    let mut shelf = shelf_with(alloc, b"", None)?;
    let mut devices: Devices<'_, '_, '_, '_, (_, _, _, _, _)> = Devices {
        link: &mut link,
        shelf: &mut shelf,
        archive: &mut NoArchive,
        rt,
        gate: &OpenGate,
    };
    let ended = run(alloc, &line, &mut devices, &mut errors);
    Ok((ended, errors, link.ends))
}

/// The run over so many line feeds ends with this status and its line, after so many reads at the
/// end of input.
fn check_feeds<R: Abort + Threads + Sync + Alloc<A = Global>>(
    rt: &R,
    mode: &str,
    length: usize,
    status: u8,
    ends: usize,
) -> Result<(), Fail> {
    let (ended, errors, reads) = run_feeds(rt, mode, length)?;
    assert_eq!(rt; ended, status, "{mode}, {length}");
    assert_eq!(rt; errors.given(), line_of(status), "{mode}, {length}");
    assert_eq!(rt; reads, ends, "{mode}, {length}");
    Ok(())
}

/// `longest-input`: 64 MiB are read to their end, and there each mode makes one read.
#[test]
fn longest_input(rt: HostRuntime) -> Result<(), Fail> {
    for (mode, length, status) in [
        ("htp", 67_108_864, 0),
        ("audit", 67_108_864, 1),
        ("check", 3, 1),
        ("migrate", 3, 1),
    ] {
        check_feeds(&rt, mode, length, status, 1)?;
    }
    Ok(())
}

/// `input-too-long`: a byte more is the last one that is read.
#[test]
fn input_too_long(rt: HostRuntime) -> Result<(), Fail> {
    for mode in ["htp", "audit"] {
        check_feeds(&rt, mode, 67_108_865, 6, 0)?;
    }
    Ok(())
}
