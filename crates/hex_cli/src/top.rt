//! The top call: from the command line to a status.

ghost use Rattle.std.specs.Prelude.{◌≡◌, ◌≢◌, ◌↔◌};
ghost use Rattle.hex_io.specs.Causes.{CountsFault};
ghost use Rattle.hexd_args.specs.Reading.{AreRefused, WellFormed};
ghost use Rattle.hexd_args.specs.declared.settings.Options.{Options};
ghost use Rattle.hexd_args.specs.declared.settings.Mode.TheVariants.{Htp, Check, Migrate};
ghost use Rattle.hexd_args.specs.declared.settings.Mode.TheVariants.{Audit, Sim, Bench, Solve};
ghost use Rattle.hex_devices.specs.declared.stops.Stop.TheVariants.{ReadFault, WriteFault};
ghost use Rattle.hex_devices.specs.declared.stops.Stop.TheVariants.{ArchiveFault};
ghost use Rattle.turn_modes.specs.OneTurn.{IsSimulation, IsBenchmark};
ghost use Rattle.hex_cli.specs.AuditTexts.{IsAuditText};
ghost use Rattle.hex_cli.specs.Causes.{Completes, IsTooLong};
ghost use Rattle.hex_devices.specs.Statuses.{Reports};
ghost use Rattle.hex_cli.specs.CertTexts.{IsCheckText, IsMigrateText};
ghost use Rattle.hex_cli.specs.Determined.{Determines};
ghost use Rattle.hex_cli.specs.Headline.{HasHeadline};
ghost use Rattle.hex_cli.specs.Modes.{AnswersBy, HandsInBy, solve_options};
ghost use Rattle.hex_cli.specs.Playing.{HasGoodTurns, HasKnownThreats, HasPlayed};
ghost use Rattle.hex_cli.specs.Runs.{InMode, seen, HasIdleShelf, HasIdleArchive};
ghost use Rattle.hex_cli.specs.SolveTexts.{IsSolveText};
ghost use Rattle.hex_devices.specs.Statuses.{status_of, HasStopped};
ghost use Rattle.hex_devices.specs.declared.ends.End.{End};

use crate::serving::serve;
use hex_devices::{DeviceTypes, Devices};
use hex_io::{Link, report};
use hexd_args::CommandLine;
use std::alloc::Global;

/// Runs the program that the arguments ask for over the devices, and answers its status.
///
/// The arguments are those of the process after the program's name; the line has them, and was read
/// before. In mode `htp` each raw line of the input is answered, by GTP version 2, from an empty
/// board of the size that the arguments say. The file store (*shelf*) has the files of `loadsgf`,
/// and the archive takes the turn of each `genmove`. Modes `check`, `migrate`, `audit` and `solve`
/// take the whole input and give one text for it. That is the verdict on a certificate, the
/// certificate in version 2 if it is of version 1 and else as it was, the verdict on traces of
/// closed trees, or who wins the position of a record. Modes `sim` and `bench` read nothing: they
/// decide the turn of one position, hand it to the archive, and give one text that says it.
///
/// Searches run in threads of the devices' runtime, and their workers pass their gate; no clause
/// speaks of these.
///
/// | status | comes | line for the errors |
/// |---|---|---|
/// | 0 | what the mode does was done; in `htp` to the input's end, or to an answered `quit` | |
/// | 1 | the whole input was answered, and it is not accepted; only in modes that take it whole | |
/// | 2 | exactly if the arguments are not well formed | `hexd: usage` |
/// | 3 | only if a read failed | `hexd: read fault` |
/// | 4 | only if a write failed | |
/// | 5 | memory ran out | `hexd: out of memory` |
/// | 6 | exactly if one byte more than the limit was taken | `hexd: input too long` |
/// | 7 | only if the archive failed | `hexd: archive fault` |
///
/// The limit is [`INPUT_LIMIT`](hex_io::INPUT_LIMIT). If a session of `htp` stopped early, it had
/// given
///
/// - with 3, the answers to all whole lines taken;
/// - with 4, a prefix of the answers;
/// - with 5, the answers to the first lines, which consumed all that was consumed;
/// - with 6, the answers to the whole lines up to the limit;
/// - with 7, the answers to all lines before the `genmove` whose turn the archive didn't take.
///
/// Each other mode had then given a prefix of its text with 4, and nothing with 3, 5, 6 and 7.
///
/// What fails first ends the run: the stream's count of read faults rose with 3, its count of write
/// faults with 4 and the archive's count of faults with 7, and each is as before with every other
/// status. A fault of the errors changes nothing of the status. With well-formed arguments memory
/// may run out at any time, and then the status is 5.
pub fn run<D: DeviceTypes, E: Link>(
    alloc: Global,
    line: &CommandLine,
    devices: &mut Devices<'_, '_, '_, '_, D>,
    errors: &mut E,
) -> u8
    ensures status { (end : End) × (result ≡ status_of end) }

    // The stream, the file store and the archive are those that were handed in.
    ensures names { devices.new.names ≡ devices.old.names }

    // The arguments, as which contracts see the line.
    ensures usage { (result ≡ status_of End.Usage) ↔ AreRefused line.now }
    ensures well_formed { result ≢ status_of End.Usage
        → (options : Options) × WellFormed line.now options }
    ensures untouched { AreRefused line.now → devices.new ≡ devices.old }

    // Mode htp: what was taken and given, and when, if the stream is observable, and what was
    // consumed from the file store and for the archive. Then, if the run is done, each generated
    // move. At every status, that each turn consumed is good, and what it says of threats is true.
    // And, if the run is done, that one worker who looks for no connections gives what the
    // arguments, the input and the files determine.
    ensures conversed { InMode Htp HasPlayed (seen line.now result devices.old devices.new) }
    ensures headline { InMode Htp HasHeadline (seen line.now result devices.old devices.new) }
    ensures good_turns { InMode Htp HasGoodTurns (seen line.now result devices.old devices.new) }
    ensures threats { InMode Htp HasKnownThreats (seen line.now result devices.old devices.new) }
    ensures determined { InMode Htp Determines (seen line.now result devices.old devices.new) }

    // Modes check, migrate, audit and solve: the whole input was taken, and its text given; the
    // status says whether it was accepted.
    ensures checked { InMode Check (λ options. AnswersBy IsCheckText)
        (seen line.now result devices.old devices.new) }
    ensures migrated { InMode Migrate (λ options. AnswersBy IsMigrateText)
        (seen line.now result devices.old devices.new) }
    ensures audited { InMode Audit (λ options. AnswersBy IsAuditText)
        (seen line.now result devices.old devices.new) }
    ensures solved { InMode Solve (λ o. AnswersBy (IsSolveText (solve_options o)))
        (seen line.now result devices.old devices.new) }

    // Modes sim and bench: one turn was handed to the archive, and then its text given.
    ensures simulated { InMode Sim (HandsInBy IsSimulation)
        (seen line.now result devices.old devices.new) }
    ensures benchmarked { InMode Bench (HandsInBy IsBenchmark)
        (seen line.now result devices.old devices.new) }

    // What is idle: the shelf in each mode but htp, the archive in those that take the whole input.
    ensures idle_shelf { HasIdleShelf line.now devices.old devices.new }
    ensures idle_archive { HasIdleArchive line.now devices.old devices.new }

    // The causes. Each count of faults rose with its own status, and is as before with every other.
    ensures read_fault { CountsFault devices.old.read_faults devices.new.read_faults
        (HasStopped result ReadFault) }
    ensures write_fault { CountsFault devices.old.write_faults devices.new.write_faults
        (HasStopped result WriteFault) }
    ensures archive_fault { CountsFault devices.old.archive_faults devices.new.archive_faults
        (HasStopped result ArchiveFault) }
    ensures too_long { IsTooLong (seen line.now result devices.old devices.new) }
    ensures complete { Completes (seen line.now result devices.old devices.new) }

    // The line for the errors.
    ensures errors { Reports E.Link result errors.old errors.new }
{
    let end = serve(alloc, line, devices);
    report(errors, end.line());
    end.status()
}
