//! Mode `htp`: a session.

ghost use Rattle.std.specs.Prelude.{◌≡◌};
ghost use Rattle.tree_words.specs.Settings.{AreInRange};
ghost use Rattle.hexd_args.specs.Values as value;
ghost use Rattle.hex_devices.specs.Devices.{CountsStop};
ghost use Rattle.hex_cli.specs.Modes.{engine_options};
ghost use Rattle.hex_cli.specs.Playing.{HasGoodTurns};
ghost use Rattle.hex_devices.specs.Statuses.{stop_in};

use hex_devices::{DeviceTypes, Devices, End};
use hex_io::INPUT_LIMIT;
use hex_plan::Means;
use hexd_args::Options;
use htp_session::converse;
use std::alloc::Global;

/// Plays a session over the devices, from an empty board of the size that the options say.
pub fn play<D: DeviceTypes>(
    alloc: Global,
    options: &Options,
    devices: &mut Devices<'_, '_, '_, '_, D>,
) -> End
    requires ranges { value.OptionsInRange options.now }
    ensures plays { HasGoodTurns options.now result
        devices.old devices.new }
    ensures counts { CountsStop devices.old devices.new (stop_in result) }
{
    let outcome = converse(
        alloc,
        devices,
        &engine_options(options),
        options.size,
        INPUT_LIMIT,
    );
    End::of(outcome)
}

/// The engine's options.
fn engine_options(options: &Options) -> hex_engine::Options
    requires ranges { value.OptionsInRange options.now }
    ensures value { result ≡ engine_options options.now }
    ensures ranges { AreInRange result.knobs }
{
    hex_engine::Options {
        knobs: options.knobs,
        means: Means {
            hsearch: options.hsearch,
            solve: options.solve,
            look: options.look,
        },
    }
}
