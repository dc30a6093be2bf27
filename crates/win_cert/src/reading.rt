//! A certificate from its text.

ghost use Rattle.std.specs.Prelude.{◌≡◌, ◌≢◌, ◌+◌, ◌<◌, ◌≤◌, ◌⊎◌, length, [], ◌∷◌, ◌++◌, Ok, Err};
ghost use Rattle.std.specs.Prelude.{Some, None, OnOk, if◌then◌else◌};
ghost use Rattle.win_cert.specs.Lines.{at_line, cert_in, cert_of, certs_of, is_nothing, lines_of};
ghost use Rattle.win_cert.specs.OneLine.{IsStatementRead, IsStatementTaken};
ghost use Rattle.win_cert.specs.declared.refusals.CertError.{CertError};
ghost use Rattle.win_cert.specs.Readings.{IsParsedAs};
ghost use Rattle.win_cert.specs.Writable.{most_lines};

use super::heads::Head;
use super::reader::Reader;
use super::statements::{Statement, read_statement};
use super::{Cert, CertError, Line, Lines, most_lines};
use conn_store::Kind;
use hex_cells::Size;
use std::alloc::Global;

/// The certificate that the bytes are the text of. `NotCert` names the first line that is not as it
/// should be, and `TooManyLines` comes exactly if one good derivation line more than the version's
/// most ([`most_lines`](crate::most_lines)) follows the head.
pub fn read(alloc: Global, bytes: &[u8]) -> Result<Cert, CertError>
    ensures { IsParsedAs bytes.now result }
{
    read_text(alloc, bytes)
}

// The same, line by line.
fn read_text(alloc: Global, bytes: &[u8]) -> Result<Cert, CertError>
    ensures { result ≢ Err CertError.Memory → result ≡ cert_in (lines_of bytes.now) }
{
    let mut reader = Reader::of(bytes);
    let head = reader.head()?;
    read_steps(alloc, &mut reader, head)
}

// The steps after the head, up to the end of the text.
fn read_steps(alloc: Global, reader: &mut Reader<'_>, head: Head) -> Result<Cert, CertError>
    requires { reader.old.line ≡ 5 }
    ensures { result ≢ Err CertError.Memory
        → result ≡ certs_of head (lines_of reader.old.rest.now) }
{
    let version = head.version;
    let size = head.board.size();
    let mut lines = Vec::new(alloc);
    let claim = 'lines: loop {
        if let Some(claim) = take_line(alloc, reader, version, size, &mut lines)? {
            break 'lines claim;
        }
    };
    end(reader)?;
    Ok(certificate(head, lines, claim))
}

// The certificate of this head, these lines and this claim.
fn certificate(head: Head, lines: Vec<Line>, claim: (Kind, u32)) -> Cert
    ensures { result ≡ cert_of head (lines.items, claim) }
{
    Cert {
        version: head.version,
        board: head.board,
        player: head.player,
        lines: Lines::of(lines),
        claim: claim.0,
        entry: claim.1,
    }
}

// Takes the next line: adds it at the end of the lines, or gives the claim.
fn take_line(
    alloc: Global,
    reader: &mut Reader<'_>,
    version: u32,
    size: Size,
    lines: &mut Vec<Line>,
) -> Result<Option<(Kind, u32)>, CertError>
    requires few { length lines.old.items ≤ most_lines version }
    requires count { reader.old.line ≡ length lines.old.items + 5 }
    ensures count { OnOk result (reader.new.line ≡ reader.old.line + 1) }
    ensures few { OnOk result (length lines.new.items ≤ most_lines version) }
    ensures none { result ≡ Ok None → length lines.new.items ≡ length lines.old.items + 1 }
    ensures value { result ≢ Err CertError.Memory
        → IsStatementTaken version size lines.old.items reader.old.rest.now result
        lines.new.items reader.new.rest.now }
{
    let step = next_step(alloc, reader, version, size)?;
    match step {
        Statement::Claim(kind, entry) => Ok(Some((kind, entry))),
        Statement::Derivation(line) => {
            if lines.len() == most_lines(version) {
                return Err(CertError::TooManyLines);
            }
            add(lines, line)?;
            Ok(None)
        }
    }
}

// Adds a line at the end.
fn add(lines: &mut Vec<Line>, line: Line) -> Result<(), CertError>
    ensures ok { OnOk result (lines.new.items ≡ lines.old.items ++ line ∷ []) }
    ensures err { result ≡ Ok tt ⊎ (result ≡ Err CertError.Memory) }
{
    match lines.push(line) {
        Ok(()) => Ok(()),
        Err(_) => Err(CertError::Memory),
    }
}

// What the next line says.
fn next_step(
    alloc: Global,
    reader: &mut Reader<'_>,
    version: u32,
    size: Size,
) -> Result<Statement, CertError>
    requires { reader.old.line < 1_100_000 }
    ensures count { OnOk result (reader.new.line ≡ reader.old.line + 1) }
    ensures value { result ≢ Err CertError.Memory
        → IsStatementRead version size (reader.old.line + 1) reader.old.rest.now result
        reader.new.rest.now }
{
    let Some(mut words) = reader.next() else {
        return Err(reader.bad());
    };
    let Ok(step) = read_statement(alloc, &mut words, version, size) else {
        return Err(CertError::Memory);
    };
    step.ok_or(reader.bad())
}

// The end of the text after the claim.
fn end(reader: &mut Reader<'_>) -> Result<(), CertError>
    requires { reader.old.line < 1_100_000 }
    ensures { result ≡ at_line (reader.old.line + 1)
        (if is_nothing (lines_of reader.old.rest.now) then Some tt else None) }
{
    if reader.is_done() {
        return Ok(());
    }
    let _after = reader.next();
    Err(reader.bad())
}
