//! The program `hexd`: [`hex_cli::run`] over the standard streams of the process.
//!
//! **What it is.** The arguments of the process, standard input and output as the link, standard
//! error for the one line of a failure, the files of the system as the shelf, and the status as the
//! exit code. The archive writes the traces of its turns to the file that `--trace` names, or drops
//! its turns if there is no such option.
//!
//! **A caller** is the shell: `printf 'boardsize 3\nshowboard\n' | hexd htp`.
//!
//! **What is proved.** That it is safe and ends whenever its streams do. What its arguments ask
//! for, and the name of the file, is proved of [`hexd_args::CommandLine`], what is answered of
//! [`hex_cli::run`], and what is written to the file of [`trace_audit::TraceArchive`].
//!
//! **What is only tested, or not said.** What the terminal or another program gave or got, and what
//! a file holds.
//!
//! **Limits.** An argument that is no text ends it with status 2.
#![tactic(auto)]

use hex_cli::run;
use hex_devices::{Devices, End, Stop, arguments_of, grow_stack, hold_streams};
use hex_io::{DirShelf, ErrLink, FileLink, Link, Shelf, StdLink, report};
use hex_plan::{Archive, NoArchive};
use hexd_args::CommandLine;
use search_team::OpenGate;
use std::alloc::Global;
use std::process::ExitCode;
use std::thread::Threads;
use trace_audit::TraceArchive;

fn main(rt: HostRuntime) -> ExitCode {
    let _held = hold_streams(&rt);
    grow_stack(&rt);
    let mut errors = ErrLink::new(&rt);
    let status = match status_of(&rt, &rt, &mut errors) {
        Ok(status) => status,
        Err(end) => {
            report(&mut errors, end.line());
            end.status()
        }
    };
    ExitCode::from(status)
}

/// The status of a run over the archive that its arguments ask for, or how the program ends that
/// can't begin one. Searches run in threads of `threads`, which is the runtime again: it starts
/// threads only for who takes it as such.
fn status_of<R: Threads + Sync>(
    rt: &HostRuntime,
    threads: &R,
    errors: &mut ErrLink,
) -> Result<u8, End> {
    let line = line_of(rt)?;
    match archive_of(rt, &line)? {
        Some(mut archive) => Ok(run_with(rt, threads, &line, errors, &mut archive)),
        None => Ok(run_with(rt, threads, &line, errors, &mut NoArchive)),
    }
}

/// A run over the standard streams and the files of the system, with this archive.
fn run_with<R: Threads + Sync, A: Archive>(
    rt: &HostRuntime,
    threads: &R,
    line: &CommandLine,
    errors: &mut ErrLink,
    archive: &mut A,
) -> u8 {
    let mut link = StdLink::new(rt);
    let mut shelf = DirShelf::new(rt);
    run_over(
        rt.alloc(),
        line,
        &mut link,
        &mut shelf,
        archive,
        threads,
        errors,
    )
}

/// A run over these devices, whose workers pass an open gate. Their types are parameters, since a
/// type that holds a lifetime is none of [`hex_devices::DeviceTypes`].
fn run_over<L: Link, F: Shelf, A: Archive, R: Threads + Sync>(
    alloc: Global,
    line: &CommandLine,
    link: &mut L,
    shelf: &mut F,
    archive: &mut A,
    threads: &R,
    errors: &mut ErrLink,
) -> u8 {
    let mut devices: Devices<'_, '_, '_, '_, (L, F, A, R, OpenGate)> = Devices {
        link,
        shelf,
        archive,
        rt: threads,
        gate: &OpenGate,
    };
    run(alloc, line, &mut devices, errors)
}

/// The archive over the file that the line names for traces, or none if it names none.
fn archive_of<'a>(
    rt: &'a HostRuntime,
    line: &CommandLine,
) -> Result<Option<TraceArchive<FileLink<'a>>>, End> {
    let Ok(asked) = line.trace(rt.alloc()) else {
        return Err(End::Stopped(Stop::Memory));
    };
    let Some(name) = asked else {
        return Ok(None);
    };
    match TraceArchive::make(rt.alloc(), FileLink::new(rt, name)) {
        Ok(archive) => Ok(Some(archive)),
        Err(_) => Err(End::Stopped(Stop::Memory)),
    }
}

/// The command line of the process, or how a run ends that can't have it.
fn line_of(rt: &HostRuntime) -> Result<CommandLine, End> {
    match CommandLine::read(rt.alloc(), arguments_of(rt)?) {
        Ok(line) => Ok(line),
        Err(_) => Err(End::Stopped(Stop::Memory)),
    }
}
