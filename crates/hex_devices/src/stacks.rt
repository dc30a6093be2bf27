//! The stack of the process.

use std::fs::File;
use std::io::Read;
use std::rt::HostRuntime;

// So much of its stack the thread of `main` may need, and a quarter more: 768 KiB, some 200 of them
// for the sums of a worker, and the rest for calls.
const PARTS: usize = 48;

const PART: usize = 16 * 1024;

/// Lets the stack grow by 768 KiB, before any memory is taken.
///
/// The system gives a stack its pages when they are touched, and ends the process by a signal if
/// its address space is used up by then. A table that can't be had is only a refusal: so the stack
/// comes first.
#[inline(never)]
pub fn grow_stack(rt: &HostRuntime) {
    let mut room = [[0u8; PART]; PARTS];
    // What is handed to the system has to stand on the stack.
    if let Ok(mut nothing) = File::open(rt, "/dev/null") {
        for part in &mut room {
            let _count = nothing.read(part);
        }
    }
}
