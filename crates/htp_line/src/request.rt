//! What a raw line asks.

ghost use Rattle.std.specs.Prelude.{◌≡◌, ◌≤◌, length, IfOk, map};
ghost use Rattle.std.specs.List.{slice_split};
ghost use Rattle.htp_line.specs.Reading.{reading, cleaned, words, number_of, is_space};

use super::bytes::{Args, HtpText};
use super::splitter::LINE_LIMIT;
use super::want::Memory;
use std::alloc::{AllocError, Global};

/// The most digits of an id.
const MOST_DIGITS: usize = 10;

/// The greatest id.
const GREATEST_ID: u64 = 2_147_483_647;

/// A request: an optional id from 0 to 2,147,483,647, the command's name and its arguments.
#[derive(Debug, Drop)]
pub struct Request {
    pub id: Option<u32>,
    pub name: HtpText,
    pub args: Args,
}

/// What a raw line is read as.
#[derive(Debug, Drop)]
pub enum Parsed {
    /// Nothing but spaces and comment: the line is discarded and not answered.
    Blank,
    /// An id that stands alone, which is a syntax error.
    Bare(u32),
    Request(Request),
}

/// Reads a raw line of at most [`LINE_LIMIT`] bytes, by GTP version 2, preprocessing and command
/// structure.
///
/// Bytes 0 to 31 and 127 but for the tab are removed; then a hash sign and all that follows it are
/// dropped; a tab becomes a space; the rest is cut into words at spaces. A first word of one to ten
/// digits with a value of at most 2,147,483,647 is the id, the next word the name, and the others
/// are the arguments. The only refusal is [`Memory`].
pub fn read_line(alloc: Global, raw: &[u8]) -> Result<Parsed, Memory>
    requires { length raw.now ≤ LINE_LIMIT }
    ensures { IfOk result (λ parsed. parsed ≡ reading raw.now) }
{
    let text = clean(alloc, raw)?;
    let mut words = words_of(alloc, &text)?;
    if words.is_empty() {
        return Ok(Parsed::Blank);
    }
    let first = words.remove(0);
    let Some(id) = read_number(first.as_slice()) else {
        return Ok(Parsed::Request(Request {
            id: None,
            name: first,
            args: Args::of(words),
        }));
    };
    if words.is_empty() {
        return Ok(Parsed::Bare(id));
    }
    let name = words.remove(0);
    Ok(Parsed::Request(Request {
        id: Some(id),
        name,
        args: Args::of(words),
    }))
}

/// The line without control bytes and comment, each tab a space.
fn clean(alloc: Global, raw: &[u8]) -> Result<Vec<u8>, AllocError>
    ensures { IfOk result (λ v. v.items ≡ cleaned raw.now) }
{
    raw.iter()
        .copied()
        .filter(|&b| (b >= b' ' && b != 0x7f) || b == b'\t')
        .take_while(|&b| b != b'#')
        .map(|b| if b == b'\t' { b' ' } else { b })
        .collect(alloc)
}

/// What stands between spaces.
fn parts_of(alloc: Global, text: &[u8]) -> Result<Vec<&[u8]>, AllocError>
    ensures { IfOk result (λ v. map (λ s. s.now) v.items ≡ slice_split is_space text.now) }
{
    text.split(|&b| b == b' ').collect(alloc)
}

/// The words between spaces.
#[tactic(auto, unfolding(crate::specs::Reading::words))]
fn words_of(alloc: Global, text: &[u8]) -> Result<Vec<HtpText>, AllocError>
    ensures { IfOk result (λ v. v.items ≡ words text.now) }
{
    let mut found = Vec::new(alloc);
    for part in &parts_of(alloc, text)? {
        if !part.is_empty() {
            found.push(HtpText::of(part.to_vec(alloc)?))?;
        }
    }
    Ok(found)
}

/// The number that a word is: one to ten digits with a value of at most 2,147,483,647, the greatest
/// id (GTP version 2, draft, 2.4). `None` exactly if it is no such number.
pub fn read_number(word: &[u8]) -> Option<u32>
    ensures { result ≡ number_of word.now }
{
    if word.is_empty() || word.len() > MOST_DIGITS {
        return None;
    }
    let mut value = 0u64;
    for &b in word {
        if !b.is_ascii_digit() {
            return None;
        }
        value = value * 10 + u64::from(b - b'0');
    }
    if value <= GREATEST_ID {
        Some(value as u32)
    } else {
        None
    }
}
