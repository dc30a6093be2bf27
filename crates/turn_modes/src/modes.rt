//! Modes sim and bench.

ghost use Rattle.std.specs.Prelude.{◌≡◌, IfOk};
ghost use Rattle.tree_words.specs.Settings.{AreInRange};
ghost use Rattle.hex_devices.specs.Devices.{CountsAs, link_and_archive};
ghost use Rattle.hex_devices.specs.Errors.{stop_of_output};
ghost use Rattle.turn_modes.specs.HandingIn.{HandsIn, IsTurnOf};

use super::options::ModeOptions;
use super::positions::bench_position;
use super::searches::{benchmarked_turn, simulated_turn};
use super::texts::{bench_text, sim_text};
use hex_devices::{DeviceTypes, Devices, OutputError, hand_over};
use hex_plan::{Memory, Turn};
use search_team::Gate;
use std::alloc::Global;
use std::thread::Threads;

/// A mode that hands in one turn.
#[derive(Clone, Copy, Debug, PartialEq, Eq)]
pub enum TurnMode {
    /// It searches the board without stones, with Black to move, by simulated workers whose
    /// schedule is drawn from the seed.
    Sim,
    /// It decides the turn of the position that the seed and the size make, with its means, and by
    /// a team of workers if it is searched.
    Bench,
}

// A turn, and the text that tells it.
#[derive(Drop)]
struct ToldTurn {
    turn: Turn,
    text: Vec<u8>,
}

/// Decides the turn of the mode's position, submits it to the archive, and gives its text.
///
/// `Archive` and `Write` come only if the archive or the link counted that fault. It refuses
/// otherwise only if memory runs out, before the turn is submitted. It reads nothing, and fetches
/// nothing from the file store.
pub fn hand_in<D: DeviceTypes>(
    alloc: Global,
    mode: TurnMode,
    options: &ModeOptions,
    devices: &mut Devices<'_, '_, '_, '_, D>,
) -> Result<(), OutputError>
    requires { AreInRange options.now.knobs }
    ensures hands { HandsIn (IsTurnOf mode options.now)
        (link_and_archive devices.old) (link_and_archive devices.new) result }
    ensures reads { devices.new.read_faults ≡ devices.old.read_faults }
    ensures shelf { devices.new.shelf ≡ devices.old.shelf }
    ensures fetches { devices.new.fetch_faults ≡ devices.old.fetch_faults }
    ensures counts { CountsAs stop_of_output devices.old devices.new result }
{
    let told = told_turn(devices.rt, alloc, mode, options, devices.gate)?;
    hand_over(
        &mut *devices.link,
        &mut *devices.archive,
        told.turn,
        &told.text,
    )?;
    Ok(())
}

// The turn of the mode, and its text.
fn told_turn<R: Threads + Sync, G: Gate + Sync>(
    rt: &R,
    alloc: Global,
    mode: TurnMode,
    options: &ModeOptions,
    gate: &G,
) -> Result<ToldTurn, Memory>
    requires { AreInRange options.now.knobs }
    ensures { IfOk result (λ told. IsTurnOf mode options.now told.turn told.text.items) }
{
    match mode {
        TurnMode::Sim => simulation(alloc, options),
        TurnMode::Bench => benchmark(rt, alloc, options, gate),
    }
}

// The turn of mode sim, and its text.
fn simulation(alloc: Global, options: &ModeOptions) -> Result<ToldTurn, Memory>
    requires { AreInRange options.now.knobs }
    ensures { IfOk result (λ told. IsTurnOf TurnMode.Sim options.now told.turn told.text.items) }
{
    let turn = simulated_turn(alloc, options)?;
    let text = sim_text(alloc, &turn)?;
    Ok(ToldTurn { turn, text })
}

// The turn of mode bench, and its text.
fn benchmark<R: Threads + Sync, G: Gate + Sync>(
    rt: &R,
    alloc: Global,
    options: &ModeOptions,
    gate: &G,
) -> Result<ToldTurn, Memory>
    requires { AreInRange options.now.knobs }
    ensures { IfOk result (λ told. IsTurnOf TurnMode.Bench options.now told.turn told.text.items) }
{
    let position = bench_position(options.size, options.knobs.seed);
    let turn = benchmarked_turn(rt, alloc, &position, options, gate)?;
    let text = bench_text(alloc, &options.knobs, position.stones, &turn)?;
    Ok(ToldTurn { turn, text })
}
