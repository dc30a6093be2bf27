//! A link in memory, which fails when it is told to.

ghost use Rattle.std.specs.Prelude.{◌≡◌, ◌<◌, ◌≤◌, ◌-◌, length, IfOk, IsErr, Contains, IsTrue, ◌↔◌};
ghost use Rattle.hex_io.specs.Told.{ReadsBytes, WritesBytes};
ghost use Rattle.hex_io.specs.Causes.{HasCause};
ghost use Rattle.hex_io.specs.Mem.{ReadFails, WriteFails, moved_of, room_left, after_read};
ghost use Rattle.hex_io.specs.Mem.{after_write, new_link};

use super::links::Link;
use super::refusals::{LinkFault, Memory};
use super::source::Source;
use std::alloc::Global;
use std::marker::Model;

/// The lengths of what was taken and given when a read began.
#[derive(Debug, Clone, Copy)]
pub struct Ask {
    pub taken: usize,
    pub given: usize,
}

/// A link in memory: it reads from bytes that were handed to it and keeps those given.
///
/// It tells all its meanings. A call fails exactly if its number, from 0, is among those that were
/// named, if a read is past the last one, or if a write finds no room for a byte. Its reads
/// and writes take no memory.
#[derive(Drop)]
pub struct MemLink {
    source: Source,
    piece: usize,
    given: Vec<u8>,
    room: usize,
    asks: Vec<Ask>,
    reads: usize,
    next_read: usize,
    next_write: usize,
    bad_reads: Vec<u32>,
    bad_writes: Vec<u32>,
    read_faults: u64,
    write_faults: u64,
}

impl Model for MemLink {
    ghost use Rattle.std.specs.Prelude.{◌<◌, ◌≤◌, map, take, drop, vec_len, vec_capacity};
    ghost use Rattle.hex_io.specs.Mem.{MemLinkData, ask_pair};

    ghost Value = { MemLinkData };

    ghost view = { λ s. record {
      told = record {
        to_come = drop s.source.at s.source.bytes.items;
        taken = take s.source.at s.source.bytes.items;
        given = s.given.items;
        asks = map ask_pair s.asks.items;
      };
      piece = s.piece;
      room = s.room;
      reads = s.reads;
      bad_reads = s.bad_reads.items;
      bad_writes = s.bad_writes.items;
      next_read = s.next_read;
      next_write = s.next_write;
      read_faults = s.read_faults;
      write_faults = s.write_faults;
    } };

    ghost invariant = { λ s. (0 < s.piece) × (s.reads ≤ vec_capacity s.asks)
        × (vec_len s.asks ≤ s.next_read) × (s.room ≤ vec_capacity s.given)
        × (vec_len s.given ≤ s.room) };
}

impl Link for MemLink {
    ghost use Rattle.std.specs.Prelude.{Some};

    ghost told = { λ s. Some s.told };

    ghost read_faults = { λ s. s.read_faults };

    ghost write_faults = { λ s. s.write_faults };

    fn read(&mut self, buf: &mut [u8]) -> Result<usize, LinkFault>
        requires { 0 < length buf.old }
        ensures bound { IfOk result (λ n. n ≤ length buf.new) }
        ensures told { ReadsBytes (Some self.old.told) (Some self.new.told) result buf.new }
        ensures cause { HasCause self.old.read_faults self.new.read_faults result }
        ensures writes { self.new.write_faults ≡ self.old.write_faults }
        ensures fails { IsErr result ↔ ReadFails self.old }
        ensures moves { IfOk result
            (λ n. n ≡ moved_of (length self.old.told.to_come) self.old.piece (length buf.old)) }
        ensures rest { self.new ≡ after_read self.old self.new.told result }
    {
        let number = self.next_read;
        self.next_read = self.next_read.saturating_add(1);
        if number >= self.reads || is_among(&self.bad_reads, number) {
            self.read_faults = self.read_faults.saturating_add(1);
            return Err(LinkFault);
        }
        let count = self.source.left().min(self.piece).min(buf.len());
        let ask = Ask {
            taken: self.source.at,
            given: self.given.len(),
        };
        self.asks.push(ask).unwrap();
        self.source.take(count, buf);
        Ok(count)
    }

    fn write(&mut self, bytes: &[u8]) -> Result<usize, LinkFault>
        requires { 0 < length bytes.now }
        ensures bound { IfOk result (λ n. (0 < n) × (n ≤ length bytes.now)) }
        ensures told { WritesBytes (Some self.old.told) (Some self.new.told) result bytes.now }
        ensures cause { HasCause self.old.write_faults self.new.write_faults result }
        ensures reads { self.new.read_faults ≡ self.old.read_faults }
        ensures fails { IsErr result ↔ WriteFails self.old }
        ensures moves { IfOk result
            (λ n. n ≡ moved_of (room_left self.old) self.old.piece (length bytes.now)) }
        ensures rest { self.new ≡ after_write self.old self.new.told result }
    {
        let number = self.next_write;
        self.next_write = self.next_write.saturating_add(1);
        let left = self.room - self.given.len();
        if left == 0 || is_among(&self.bad_writes, number) {
            self.write_faults = self.write_faults.saturating_add(1);
            return Err(LinkFault);
        }
        let count = left.min(self.piece).min(bytes.len());
        self.given.extend_from_slice(&bytes[..count]).unwrap();
        Ok(count)
    }
}

/// Whether the number stands among these.
pub(crate) fn is_among(numbers: &[u32], number: usize) -> bool
    ensures { IsTrue result ↔ Contains numbers.now number }
{
    numbers.iter().any(|&n| n as usize == number)
}

impl MemLink {
    /// A link that reads `input` in pieces of at most `piece` bytes, which is at least 1, and has
    /// room for `room` bytes given and for `reads` reads in all. The reads and writes whose
    /// numbers stand in the two lists fail.
    pub fn make(
        alloc: Global,
        input: Vec<u8>,
        piece: usize,
        room: usize,
        reads: usize,
        bad_reads: Vec<u32>,
        bad_writes: Vec<u32>,
    ) -> Result<MemLink, Memory>
        requires { 1 ≤ piece }
        ensures { IfOk result (λ link. link
            ≡ new_link input.items piece room reads bad_reads.items bad_writes.items) }
    {
        let given = Vec::with_capacity(alloc, room)?;
        let asks = Vec::with_capacity(alloc, reads)?;
        Ok(MemLink {
            source: Source::of(input),
            piece,
            given,
            room,
            asks,
            reads,
            next_read: 0,
            next_write: 0,
            bad_reads,
            bad_writes,
            read_faults: 0,
            write_faults: 0,
        })
    }

    /// Lends what was given so far.
    pub fn given(&self) -> &[u8]
        ensures { result.now ≡ self.now.told.given }
    {
        &self.given
    }

    /// How many reads began so far, those that failed among them.
    pub fn read_count(&self) -> usize
        ensures { result ≡ self.now.next_read }
    {
        self.next_read
    }

    /// How many writes began so far, those that failed among them.
    pub fn write_count(&self) -> usize
        ensures { result ≡ self.now.next_write }
    {
        self.next_write
    }
}
