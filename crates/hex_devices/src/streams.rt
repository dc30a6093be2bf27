//! Standard streams that a process was started without.

use std::fs::File;
use std::rt::HostRuntime;

/// What stands in for closed standard streams, until it is dropped.
#[derive(Drop)]
pub struct HeldStreams {
    _folders: [Option<File>; 3],
}

/// Holds those of the descriptors 0 to 2 that are closed, so that no file that is opened later gets
/// one of them: otherwise a trace would be opened as standard output, and hold the answers.
///
/// A new descriptor is the least that is free, so three of them fill these places. They are of the
/// root folder: a read from a folder and a write to it fail, as they do at a closed stream. If it
/// can't be opened, nothing is held.
pub fn hold_streams(rt: &HostRuntime) -> HeldStreams {
    HeldStreams {
        _folders: [root_folder(rt), root_folder(rt), root_folder(rt)],
    }
}

// The root folder, opened once more.
fn root_folder(rt: &HostRuntime) -> Option<File> {
    File::open(rt, "/").ok()
}
