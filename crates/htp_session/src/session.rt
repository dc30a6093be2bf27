//! A session: what comes in piece by piece, and what is owed for it.

ghost use Rattle.std.specs.Prelude.{◌≡◌, ◌<◌, ◌≤◌, length, IfOk, true, []};
ghost use Rattle.tree_words.specs.Settings.{AreInRange};
ghost use Rattle.hex_engine.specs.EngineState.{opening};
ghost use Rattle.htp_line.specs.Splitting.{StandsAfter};
ghost use Rattle.hex_devices.specs.Devices.{CountsAs};
ghost use Rattle.hex_devices.specs.Errors.{stop_of_output};

use crate::answering::respond;
use crate::holding::{give_held, relieve};
use hex_cells::Size;
use hex_devices::{DeviceTypes, Devices, OutputError};
use hex_engine::{Engine, Memory, Options};
use htp_line::Splitter;
use std::alloc::Global;

/// How far one line went.
#[derive(Clone, Copy, Debug)]
struct Moved {
    used: usize,
    quit: bool,
}

/// The engine, the line in hand, and the answers that are held: written, and not given yet.
#[derive(Drop)]
pub struct Session {
    engine: Engine,
    splitter: Splitter,
    out: Vec<u8>,
}

impl Session {
    ghost use Rattle.htp_session.specs.Calls.Answering.{WritesAnswer};
    ghost use Rattle.htp_session.specs.Calls.Session.{AdvancesBy, TakesPiece};

    /// A session before its first byte.
    pub fn make(alloc: Global, options: &Options, size: Size) -> Result<Session, Memory>
        requires { AreInRange options.now.knobs }
        ensures engine { IfOk result (λ s. s.engine ≡ opening options.now size) }
        ensures in_hand { IfOk result (λ s. StandsAfter s.splitter []) }
    {
        let engine = Engine::make(alloc, options, size)?;
        let Ok(splitter) = Splitter::make(alloc) else {
            return Err(Memory);
        };
        Ok(Session {
            engine,
            splitter,
            out: Vec::new(alloc),
        })
    }

    /// Answers the line that ended after what is held, and says whether quit was answered.
    fn answer<D: DeviceTypes>(
        &mut self,
        alloc: Global,
        devices: &mut Devices<'_, '_, '_, '_, D>,
    ) -> Result<bool, OutputError>
        requires ended { self.old.splitter.ended ≡ true }
        ensures writes { WritesAnswer devices.old devices.new self.old.engine self.new.engine
            self.old.splitter.line self.old.out.items self.new.out.items result }
        ensures splitter { self.new.splitter ≡ self.old.splitter }
        ensures counts { CountsAs stop_of_output devices.old devices.new result }
    {
        let raw = self.splitter.line();
        respond(alloc, &mut self.engine, devices, raw, &mut self.out)
    }

    /// Takes up to one line off the beginning of the piece, and answers it after what is held.
    fn advance<D: DeviceTypes>(
        &mut self,
        alloc: Global,
        devices: &mut Devices<'_, '_, '_, '_, D>,
        piece: &[u8],
    ) -> Result<Moved, OutputError>
        requires some { 0 < length piece.now }
        ensures used { IfOk result (λ m. (0 < m.used) × (m.used ≤ length piece.now)) }
        ensures advances { AdvancesBy devices.old devices.new self.old self.new piece.now result }
    {
        let fed = self.splitter.push(piece);
        if !fed.ended {
            return Ok(Moved {
                used: fed.used,
                quit: false,
            });
        }
        let quit = self.answer(alloc, devices)?;
        Ok(Moved {
            used: fed.used,
            quit,
        })
    }

    /// Takes a piece, and answers each line that ends in it. The last answers are held. It says
    /// whether quit was answered.
    fn take<D: DeviceTypes>(
        &mut self,
        alloc: Global,
        devices: &mut Devices<'_, '_, '_, '_, D>,
        piece: &[u8],
    ) -> Result<bool, OutputError>
        ensures takes { TakesPiece devices.old devices.new self.old self.new piece.now result }
    {
        self.out.clear();
        let mut at = 0;
        'lines: while at < piece.len() {
            relieve(devices, &mut self.out)?;
            let moved = self.advance(alloc, devices, &piece[at..])?;
            if moved.quit {
                return Ok(true);
            }
            at += moved.used;
        }
        Ok(false)
    }
}

impl Session {
    ghost use Rattle.htp_session.specs.Calls.Session.{Feeds, Finishes};

    /// Takes a piece and answers each line that ends in it. All answers are given then; those
    /// before a `genmove` or a `loadsgf` are given before it is asked. It says whether quit was
    /// answered.
    pub fn feed<D: DeviceTypes>(
        &mut self,
        alloc: Global,
        devices: &mut Devices<'_, '_, '_, '_, D>,
        piece: &[u8],
    ) -> Result<bool, OutputError>
        ensures feeds { Feeds devices.old devices.new self.old self.new piece.now result }
    {
        let quit = self.take(alloc, devices, piece)?;
        give_held(devices, &mut self.out)?;
        Ok(quit)
    }

    /// Answers the last line, if no line feed ends it.
    pub fn finish<D: DeviceTypes>(
        &mut self,
        alloc: Global,
        devices: &mut Devices<'_, '_, '_, '_, D>,
    ) -> Result<(), OutputError>
        ensures finishes { Finishes devices.old devices.new self.old result }
    {
        self.out.clear();
        if !self.splitter.finish() {
            return Ok(());
        }
        self.answer(alloc, devices)?;
        Ok(give_held(devices, &mut self.out)?)
    }
}
