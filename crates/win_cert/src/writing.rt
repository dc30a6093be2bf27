//! The text of a certificate.

ghost use Rattle.std.specs.Prelude.{◌≡◌, ℕ, ◌++◌, map, All, IfOk, OnOk};
ghost use Rattle.std.specs.List.{flat_map, join_with_byte};
ghost use Rattle.win_cert.specs.Texts.{cert_text, claim_words, ended, head_words};
ghost use Rattle.win_cert.specs.Texts.{kind_word, line_words, space};
ghost use Rattle.win_cert.specs.Writable.{IsLineOf, IsWritable};

use super::pushing::{
    push_cells, push_count, push_end, push_name_line, push_number_line, push_numbers,
    push_stones_line, push_vertex,
};
use super::{Cert, CertText, Line, Memory};
use conn_store::Kind;
use hex_cells::{Colour, Size};
use std::alloc::{AllocError, Global};

/// The text of a certificate. It refuses only if memory runs out.
pub fn write(alloc: Global, cert: &Cert) -> Result<CertText, Memory>
    requires { IsWritable cert.now }
    ensures { IfOk result (λ text. text ≡ cert_text cert.now) }
{
    let mut text = Vec::new(alloc);
    push_head(alloc, &mut text, cert)?;
    push_lines(alloc, &mut text, cert.lines.as_slice(), cert.board.size())?;
    push_claim(alloc, &mut text, cert)?;
    Ok(CertText::of(text))
}

// The five lines that tell version, size, player and stones.
fn push_head(alloc: Global, text: &mut Vec<u8>, cert: &Cert) -> Result<(), AllocError>
    ensures { OnOk result
        (text.new.items ≡ text.old.items ++ flat_map ended (head_words cert.now)) }
{
    let size = cert.board.size();
    push_number_line(alloc, text, b"hexcert", cert.version)?;
    push_number_line(alloc, text, b"size", size.get())?;
    push_name_line(text, b"player", cert.player.word())?;
    push_stones_line(text, b"black", cert.board.stones(Colour::Black), size)?;
    push_stones_line(text, b"white", cert.board.stones(Colour::White), size)
}

// The lines of the derivation.
fn push_lines(
    alloc: Global,
    text: &mut Vec<u8>,
    lines: &[Line],
    size: Size,
) -> Result<(), AllocError>
    requires { All (λ line. (version : ℕ) × IsLineOf version size line) lines.now }
    ensures { OnOk result
        (text.new.items ≡ text.old.items ++ flat_map ended (map (line_words size) lines.now)) }
{
    for line in lines {
        push_line(alloc, text, line, size)?;
        text.push(b'\n')?;
    }
    Ok(())
}

// The line of the claim.
fn push_claim(alloc: Global, text: &mut Vec<u8>, cert: &Cert) -> Result<(), AllocError>
    ensures { OnOk result (text.new.items ≡ text.old.items ++ ended (claim_words cert.now)) }
{
    push_number_line(alloc, text, kind_name(cert.claim), cert.entry)
}

// A derivation line, without its line feed.
fn push_line(alloc: Global, text: &mut Vec<u8>, line: &Line, size: Size) -> Result<(), AllocError>
    requires { (version : ℕ) × IsLineOf version size line.now }
    ensures { OnOk result
        (text.new.items ≡ text.old.items ++ join_with_byte space (line_words size line.now)) }
{
    match line {
        Line::Adj(x, y) => {
            text.extend_from_slice(b"adj")?;
            push_end(text, *x, size)?;
            push_end(text, *y, size)
        }
        Line::And(i, j) => push_numbers(alloc, text, b"and", &[*i, *j]),
        Line::Key(i, j) => push_numbers(alloc, text, b"key", &[*i, *j]),
        Line::Or2(i, j) => push_numbers(alloc, text, b"or", &[*i, *j]),
        Line::Or3(i, j, k) => push_numbers(alloc, text, b"or", &[*i, *j, *k]),
        Line::OrMany(numbers) => push_numbers(alloc, text, b"or", numbers.as_slice()),
        Line::Put(cells) => push_cells(text, b"put", *cells, size),
        Line::Done => text.extend_from_slice(b"done"),
        Line::Move(cell, i) => {
            text.extend_from_slice(b"move")?;
            push_vertex(text, *cell, size)?;
            push_count(alloc, text, *i)
        }
        Line::Cases(numbers) => push_numbers(alloc, text, b"cases", numbers.as_slice()),
        Line::Lift(i) => push_numbers(alloc, text, b"lift", &[*i]),
    }
}

fn kind_name(kind: Kind) -> &'static [u8]
    ensures { result.now ≡ kind_word kind }
{
    match kind {
        Kind::Full => b"full",
        Kind::Semi => b"semi",
    }
}
