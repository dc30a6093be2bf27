//! Tables of runs.

use super::runs::{Case, ample, check};
use std::alloc::Global;
use std::process::Abort;
use std::test::Fail;
use std::thread::Threads;

/// The bytes that a field of a table stands for: `~` is a line feed.
pub(super) fn bytes_of(alloc: Global, field: &str) -> Result<Vec<u8>, Fail> {
    let mut bytes = Vec::new(alloc);
    for &byte in field.as_bytes() {
        bytes.push(if byte == b'~' { b'\n' } else { byte })?;
    }
    Ok(bytes)
}

/// Each row of the table is a run in pieces of several lengths. Between the bars of a line stand
/// its name, its words, its input, its status and what it gives.
pub(super) fn check_rows<R: Abort + Threads + Sync + Alloc<A = Global>>(
    rt: &R,
    table: &str,
) -> Result<(), Fail> {
    let alloc = rt.alloc();
    for line in table.lines() {
        let mut fields = line.split('|');
        let name = fields.next().ok_or("a name")?;
        let words = fields.next().ok_or("words")?;
        let input = bytes_of(alloc, fields.next().ok_or("an input")?)?;
        let status = fields.next().ok_or("a status")?.parse::<u8>()?;
        let given = bytes_of(alloc, fields.next().ok_or("an output")?)?;
        for piece in [1, 7, 1_000] {
            if input.is_empty() && piece > 1 {
                continue;
            }
            let case = Case {
                piece,
                ..ample(words, &input)
            };
            check(rt, name, &case, &given, status)?;
        }
    }
    Ok(())
}
