//! The links over the standard streams: the trusted edge.
//!
//! They tell nothing of their bytes. Each read and each write is one call of the system with the
//! whole slice, so a read takes what is there and a write has left the process when it returns.

ghost use Rattle.std.specs.Prelude.{◌≡◌, ◌<◌, ◌≤◌, length, IfOk, None};
ghost use Rattle.hex_io.specs.Told.{ReadsBytes};
ghost use Rattle.hex_io.specs.Causes.{HasCause};

use super::links::Link;
use super::refusals::LinkFault;
use std::io::{Read, Write};
use std::marker::Model;
use std::rt::{HostRuntime, Stderr, Stdin, Stdout};

/// Standard input and standard output. Contracts see its two counts of faults.
#[derive(Drop)]
pub struct StdLink {
    input: Stdin,
    output: Stdout,
    read_faults: u64,
    write_faults: u64,
}

impl Model for StdLink {
    ghost use Rattle.hex_io.specs.Causes.{FaultCounts};

    ghost Value = { FaultCounts };

    ghost view = { λ s. record { reads = s.read_faults; writes = s.write_faults } };
}

impl StdLink {
    /// The standard streams of the process, with no fault counted yet.
    pub fn new(rt: &HostRuntime) -> StdLink
        ensures { result ≡ record { reads = 0; writes = 0 } }
    {
        StdLink {
            input: rt.stdin(),
            output: rt.stdout(),
            read_faults: 0,
            write_faults: 0,
        }
    }
}

impl Link for StdLink {
    ghost told = { λ _. None };

    ghost read_faults = { λ s. s.reads };

    ghost write_faults = { λ s. s.writes };

    fn read(&mut self, buf: &mut [u8]) -> Result<usize, LinkFault> {
        match self.input.read(buf) {
            Ok(count) => Ok(count),
            Err(_) => {
                self.read_faults = self.read_faults.saturating_add(1);
                Err(LinkFault)
            }
        }
    }

    fn write(&mut self, bytes: &[u8]) -> Result<usize, LinkFault> {
        write_once(&mut self.output, &mut self.write_faults, bytes)
    }
}

/// Standard error. Nothing is to come: a read answers 0. Contracts see its count of faults.
#[derive(Drop)]
pub struct ErrLink {
    output: Stderr,
    write_faults: u64,
}

impl Model for ErrLink {
    ghost use Rattle.std.specs.Prelude.{ℕ};

    ghost Value = { ℕ };

    ghost view = { λ s. s.write_faults };
}

impl ErrLink {
    /// Standard error of the process, with no fault counted yet.
    pub fn new(rt: &HostRuntime) -> ErrLink
        ensures { result ≡ 0 }
    {
        ErrLink {
            output: rt.stderr(),
            write_faults: 0,
        }
    }
}

impl Link for ErrLink {
    ghost told = { λ _. None };

    ghost read_faults = { λ _. 0 };

    ghost write_faults = { λ s. s };

    fn read(&mut self, buf: &mut [u8]) -> Result<usize, LinkFault>
        ensures bound { IfOk result (λ n. n ≤ length buf.new) }
        ensures told { ReadsBytes None None result buf.new }
        ensures cause { HasCause 0 0 result }
        ensures writes { self.new ≡ self.old }
        ensures nothing { result ≡ Ok 0 }
    {
        Ok(0)
    }

    fn write(&mut self, bytes: &[u8]) -> Result<usize, LinkFault> {
        write_once(&mut self.output, &mut self.write_faults, bytes)
    }
}

/// Gives a prefix of `bytes` to a stream. One that takes none of them is at fault too.
pub(crate) fn write_once<W: Write>(
    output: &mut W,
    faults: &mut u64,
    bytes: &[u8],
) -> Result<usize, LinkFault>
    requires { 0 < length bytes.now }
    ensures bound { IfOk result (λ n. (0 < n) × (n ≤ length bytes.now)) }
    ensures cause { HasCause faults.old faults.new result }
{
    match output.write(bytes) {
        Ok(count) if count > 0 => Ok(count),
        _ => {
            *faults = faults.saturating_add(1);
            Err(LinkFault)
        }
    }
}
