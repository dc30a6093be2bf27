//! Drafts of certificates, which no clause says are accepted.

ghost use Rattle.std.specs.Prelude.{◌<◌, All, IfOk, length};
ghost use Rattle.win_cert.specs.Cuts.{IsDraftOf};

use super::cutting::lines_for;
use super::marking::marked;
use super::{Cert, Line, Lines, Memory, Numbers, version_for};
use conn_store::Kind;
use hsearch::Report;
use std::alloc::{AllocError, Global};

/// A draft of a certificate that the report's player wins whoever places first, by an `or` of the
/// entries with these numbers. It has a line for each entry on which they rest, in the order of the
/// report's entries, and then the `or`, which it claims.
///
/// No clause says that it can be written or is accepted: whoever takes it has both to check. It
/// refuses only if memory runs out.
pub fn draft_or(alloc: Global, report: &Report, numbers: &[u32]) -> Result<Cert, Memory>
    requires { All (λ n. n < length report.now.entries) numbers.now }
    ensures { IfOk result (IsDraftOf report.now) }
{
    let store = report.store();
    let marks = marked(alloc, store.entries(), numbers)?;
    let (mut lines, renamed) = lines_for(alloc, store, &marks)?;
    let entry = lines.len() as u32;
    let Ok(()) = lines.push(or_line(named(alloc, &renamed, numbers)?)) else {
        return Err(Memory);
    };
    Ok(Cert {
        version: version_for(lines.as_slice()),
        board: *store.board(),
        player: store.colour(),
        lines: Lines::of(lines),
        claim: Kind::Full,
        entry,
    })
}

// What the entries with these numbers are called.
fn named(alloc: Global, renamed: &[u32], numbers: &[u32]) -> Result<Vec<u32>, AllocError>
    requires { All (λ n. n < length renamed.now) numbers.now }
{
    let mut named = Vec::new(alloc);
    'numbers: for &number in numbers {
        named.push(renamed[number as usize])?;
    }
    Ok(named)
}

// The `or` of the lines with these numbers.
fn or_line(numbers: Vec<u32>) -> Line {
    match numbers.as_slice() {
        [i, j] => Line::Or2(*i, *j),
        [i, j, k] => Line::Or3(*i, *j, *k),
        _ => Line::OrMany(Numbers::of(numbers)),
    }
}
