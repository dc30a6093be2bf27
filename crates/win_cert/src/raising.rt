//! Certificates in the version with scopes and cases, and copies.

ghost use Rattle.std.specs.Prelude.{◌≡◌, IfOk, OnOk};
ghost use Rattle.win_cert.specs.Verdicts.{HaveSameVerdict, raised};
ghost use Rattle.win_cert.specs.Writable.{IsWritable};

use super::{Cert, Line, Lines, Memory, Numbers, SECOND_VERSION};
use std::alloc::{AllocError, Global};

/// The same certificate in version 2 if it is of version 1, and else in its own. It can be written,
/// and there are the same verdicts on it. It refuses only if memory runs out.
pub fn raise(alloc: Global, cert: &Cert) -> Result<Cert, Memory>
    requires { IsWritable cert.now }
    ensures raised { IfOk result (λ new. new ≡ raised cert.now) }
    ensures writable { IfOk result IsWritable }
    ensures verdict { IfOk result (HaveSameVerdict cert.now) }
{
    let lines = copies(alloc, cert.lines.as_slice())?;
    Ok(Cert {
        version: cert.version.max(SECOND_VERSION),
        board: cert.board,
        player: cert.player,
        lines: Lines::of(lines),
        claim: cert.claim,
        entry: cert.entry,
    })
}

/// The same certificate. It refuses only if memory runs out.
pub fn copy(alloc: Global, cert: &Cert) -> Result<Cert, Memory>
    ensures { IfOk result (λ new. new ≡ cert.now) }
{
    let lines = copies(alloc, cert.lines.as_slice())?;
    Ok(Cert {
        version: cert.version,
        board: cert.board,
        player: cert.player,
        lines: Lines::of(lines),
        claim: cert.claim,
        entry: cert.entry,
    })
}

// The same lines.
fn copies(alloc: Global, lines: &[Line]) -> Result<Vec<Line>, AllocError>
    ensures { IfOk result (λ new. new.items ≡ lines.now) }
{
    let mut copies = Vec::new(alloc);
    for line in lines {
        copies.push(copied(alloc, line)?)?;
    }
    Ok(copies)
}

// The same line.
fn copied(alloc: Global, line: &Line) -> Result<Line, AllocError>
    ensures { IfOk result (λ new. new ≡ line.now) }
{
    match line {
        Line::Adj(x, y) => Ok(Line::Adj(*x, *y)),
        Line::And(i, j) => Ok(Line::And(*i, *j)),
        Line::Key(i, j) => Ok(Line::Key(*i, *j)),
        Line::Or2(i, j) => Ok(Line::Or2(*i, *j)),
        Line::Or3(i, j, k) => Ok(Line::Or3(*i, *j, *k)),
        Line::OrMany(numbers) => Ok(Line::OrMany(copy_of(alloc, numbers)?)),
        Line::Put(cells) => Ok(Line::Put(*cells)),
        Line::Done => Ok(Line::Done),
        Line::Move(cell, i) => Ok(Line::Move(*cell, *i)),
        Line::Cases(numbers) => Ok(Line::Cases(copy_of(alloc, numbers)?)),
        Line::Lift(i) => Ok(Line::Lift(*i)),
    }
}

// The same numbers.
fn copy_of(alloc: Global, numbers: &Numbers) -> Result<Numbers, AllocError>
    ensures { IfOk result (λ new. new ≡ numbers.now) }
{
    Ok(Numbers::of(numbers.as_slice().to_vec(alloc)?))
}
