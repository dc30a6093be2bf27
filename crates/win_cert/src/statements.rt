//! What a line after the head says: a derivation line, or the claim.

ghost use Rattle.std.specs.Prelude.{◌≡◌, IfOk};
ghost use Rattle.win_cert.specs.Named.{adj_in, alone, args_named, cases_in, claim_in, lift_in};
ghost use Rattle.win_cert.specs.Named.{move_in, or_in, or_of, pair_in, put_in, statement_named};

use super::keywords::{Keyword, is_in_version, keyword_of};
use super::words::Words;
use super::{LEAST_CASES, LEAST_MANY, Line, MOST_CASES, Numbers, THIRD_VERSION};
use conn_store::Kind;
use hex_cells::Size;
use std::alloc::{AllocError, Global};

/// What a line of a certificate after its head says: a derivation line, or the claim with the
/// number of its entry. The reasons against certificates speak of statements.
#[derive(Drop)]
pub enum Statement {
    Derivation(Line),
    Claim(Kind, u32),
}

/// What the words of a line say, in a certificate of that version on a board of that size; `None`
/// exactly if they say nothing.
pub(crate) fn read_statement(
    alloc: Global,
    words: &mut Words<'_>,
    version: u32,
    size: Size,
) -> Result<Option<Statement>, AllocError>
    ensures { IfOk result (λ step. step ≡ statement_named version size words.old) }
{
    let Some(word) = words.next() else {
        return Ok(None);
    };
    let Some(keyword) = keyword_of(word) else {
        return Ok(None);
    };
    if is_in_version(version, keyword) {
        read_args(alloc, words, keyword, version, size)
    } else {
        Ok(None)
    }
}

// What the words after the keyword say.
fn read_args(
    alloc: Global,
    words: &mut Words<'_>,
    keyword: Keyword,
    version: u32,
    size: Size,
) -> Result<Option<Statement>, AllocError>
    ensures { IfOk result (λ step. step ≡ args_named version size keyword words.old) }
{
    match keyword {
        Keyword::Adj => Ok(read_adj(words, size)),
        Keyword::And => Ok(read_and(words)),
        Keyword::Key => Ok(read_key(words)),
        Keyword::Or => read_or(alloc, words, version),
        Keyword::Put => Ok(read_put(words, size)),
        Keyword::Done => Ok(read_done(words)),
        Keyword::Move => Ok(read_move(words, size)),
        Keyword::Cases => read_cases(alloc, words),
        Keyword::Lift => Ok(read_lift(words)),
        Keyword::Full => Ok(read_claim(words, Kind::Full)),
        Keyword::Semi => Ok(read_claim(words, Kind::Semi)),
    }
}

fn read_adj(words: &mut Words<'_>, size: Size) -> Option<Statement>
    ensures { result ≡ adj_in size words.old }
{
    let x = words.end(size)?;
    let y = words.end(size)?;
    words.nothing()?;
    Some(Statement::Derivation(Line::Adj(x, y)))
}

fn read_and(words: &mut Words<'_>) -> Option<Statement>
    ensures { result ≡ pair_in Line.And words.old }
{
    let i = words.number()?;
    let j = words.number()?;
    words.nothing()?;
    Some(Statement::Derivation(Line::And(i, j)))
}

fn read_key(words: &mut Words<'_>) -> Option<Statement>
    ensures { result ≡ pair_in Line.Key words.old }
{
    let i = words.number()?;
    let j = words.number()?;
    words.nothing()?;
    Some(Statement::Derivation(Line::Key(i, j)))
}

fn read_or(
    alloc: Global,
    words: &mut Words<'_>,
    version: u32,
) -> Result<Option<Statement>, AllocError>
    ensures { IfOk result (λ step. step ≡ or_in version words.old) }
{
    let Some(numbers) = words.numbers(alloc)? else {
        return Ok(None);
    };
    Ok(or_of(version, numbers))
}

// The `or` of these numbers.
fn or_of(version: u32, numbers: Vec<u32>) -> Option<Statement>
    ensures { result ≡ or_of version numbers.items }
{
    if numbers.len() == 2 {
        return Some(Statement::Derivation(Line::Or2(numbers[0], numbers[1])));
    }
    if numbers.len() == 3 {
        return Some(Statement::Derivation(Line::Or3(numbers[0], numbers[1], numbers[2])));
    }
    if THIRD_VERSION <= version && LEAST_MANY <= numbers.len() && numbers.len() <= MOST_CASES {
        Some(Statement::Derivation(Line::OrMany(Numbers::of(numbers))))
    } else {
        None
    }
}

fn read_put(words: &mut Words<'_>, size: Size) -> Option<Statement>
    ensures { result ≡ put_in size words.old }
{
    let cells = words.cells(size)?;
    Some(Statement::Derivation(Line::Put(cells)))
}

fn read_done(words: &mut Words<'_>) -> Option<Statement>
    ensures { result ≡ alone (Statement.Derivation Line.Done) words.old }
{
    words.nothing()?;
    Some(Statement::Derivation(Line::Done))
}

fn read_move(words: &mut Words<'_>, size: Size) -> Option<Statement>
    ensures { result ≡ move_in size words.old }
{
    let cell = words.cell(size)?;
    let i = words.number()?;
    words.nothing()?;
    Some(Statement::Derivation(Line::Move(cell, i)))
}

fn read_cases(alloc: Global, words: &mut Words<'_>) -> Result<Option<Statement>, AllocError>
    ensures { IfOk result (λ step. step ≡ cases_in words.old) }
{
    let Some(numbers) = words.numbers(alloc)? else {
        return Ok(None);
    };
    if LEAST_CASES <= numbers.len() && numbers.len() <= MOST_CASES {
        Ok(Some(Statement::Derivation(Line::Cases(Numbers::of(numbers)))))
    } else {
        Ok(None)
    }
}

fn read_lift(words: &mut Words<'_>) -> Option<Statement>
    ensures { result ≡ lift_in words.old }
{
    let i = words.number()?;
    words.nothing()?;
    Some(Statement::Derivation(Line::Lift(i)))
}

fn read_claim(words: &mut Words<'_>, kind: Kind) -> Option<Statement>
    ensures { result ≡ claim_in kind words.old }
{
    let i = words.number()?;
    words.nothing()?;
    Some(Statement::Claim(kind, i))
}
