//! Modes `sim` and `bench`: one turn, and the text that says it.

ghost use Rattle.std.specs.Prelude.{◌≡◌};
ghost use Rattle.tree_words.specs.Settings.{AreInRange};
ghost use Rattle.hexd_args.specs.Values as value;
ghost use Rattle.hex_devices.specs.Devices.{CountsStop};
ghost use Rattle.turn_modes.specs.HandingIn.{IsTurnOf};
ghost use Rattle.hex_cli.specs.Modes.{HandsInBy, bench_means, mode_options};
ghost use Rattle.hex_cli.specs.Runs.{IsUnfetched};
ghost use Rattle.hex_devices.specs.Statuses.{stop_in};

use hex_devices::{DeviceTypes, Devices, End};
use hex_plan::Means;
use hexd_args::Options;
use std::alloc::Global;
use turn_modes::{ModeOptions, TurnMode, hand_in};

/// Hands in the turn of the mode, and its text.
pub fn serve_turn<D: DeviceTypes>(
    alloc: Global,
    mode: TurnMode,
    options: &Options,
    devices: &mut Devices<'_, '_, '_, '_, D>,
) -> End
    requires ranges { value.OptionsInRange options.now }
    ensures hands { HandsInBy (IsTurnOf mode) options.now result
        devices.old devices.new }
    ensures unfetched { IsUnfetched devices.old devices.new }
    ensures counts { CountsStop devices.old devices.new (stop_in result) }
{
    let told = mode_options(options);
    let output = hand_in(alloc, mode, &told, devices);
    End::of_output(output)
}

/// What the modes are told.
fn mode_options(options: &Options) -> ModeOptions
    requires ranges { value.OptionsInRange options.now }
    ensures value { result ≡ mode_options options.now }
    ensures ranges { AreInRange result.knobs }
{
    ModeOptions {
        size: options.size,
        knobs: options.knobs,
        steps: options.steps,
        means: bench_means(options),
    }
}

/// By what means bench chooses its cell: those of a session, if an option asks for certificates or
/// a look-ahead; otherwise the tree's search alone.
fn bench_means(options: &Options) -> Means
    ensures { result ≡ bench_means options.now }
{
    let asked = 0 < options.solve || 0 < options.look;
    Means {
        hsearch: asked && options.hsearch,
        solve: options.solve,
        look: options.look,
    }
}
