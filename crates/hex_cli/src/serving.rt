//! What is done for the words of a run, in the mode that they say.

ghost use Rattle.std.specs.Prelude.{◌≡◌, ◌≢◌, ◌↔◌};
ghost use Rattle.hexd_args.specs.Reading.{AreRefused, WellFormed};
ghost use Rattle.hexd_args.specs.Values as value;
ghost use Rattle.hexd_args.specs.declared.settings.Options.{Options};
ghost use Rattle.hex_devices.specs.Devices.{CountsStop};
ghost use Rattle.hex_cli.specs.Modes.{kind_of};
ghost use Rattle.hex_cli.specs.Served.{IsIdleBy, LeavesIdle, Serves, ServesBy};
ghost use Rattle.hex_devices.specs.Statuses.{stop_in};

use crate::kinds::ModeKind;
use crate::playing::play;
use crate::single_turns::serve_turn;
use crate::whole_inputs::serve_input;
use hex_devices::{DeviceTypes, Devices, End};
use hexd_args::{CommandLine, Options};
use std::alloc::Global;

/// Does over the devices what the arguments ask for, in the mode that they name.
pub fn serve<D: DeviceTypes>(
    alloc: Global,
    line: &CommandLine,
    devices: &mut Devices<'_, '_, '_, '_, D>,
) -> End
    ensures usage { (result ≡ End.Usage) ↔ AreRefused line.now }
    ensures well_formed { result ≢ End.Usage
        → (options : Options) × WellFormed line.now options }
    ensures untouched { AreRefused line.now → devices.new ≡ devices.old }
    ensures does { Serves line.now result devices.old devices.new }
    ensures idle { LeavesIdle line.now devices.old devices.new }
    ensures counts { CountsStop devices.old devices.new (stop_in result) }
{
    match line.options() {
        Some(options) => in_mode(alloc, options, devices),
        None => End::Usage,
    }
}

/// Serves over the devices what the options ask for, in the mode that they say.
fn in_mode<D: DeviceTypes>(
    alloc: Global,
    options: &Options,
    devices: &mut Devices<'_, '_, '_, '_, D>,
) -> End
    requires ranges { value.OptionsInRange options.now }
    ensures does { ServesBy (kind_of options.now.mode options.now) options.now result
        devices.old devices.new }
    ensures idle { IsIdleBy (kind_of options.now.mode options.now) devices.old devices.new }
    ensures counts { CountsStop devices.old devices.new (stop_in result) }
{
    match ModeKind::of(options) {
        ModeKind::Session => play(alloc, options, devices),
        ModeKind::WholeInput(mode) => serve_input(alloc, mode, devices),
        ModeKind::OneTurn(mode) => serve_turn(alloc, mode, options, devices),
    }
}
