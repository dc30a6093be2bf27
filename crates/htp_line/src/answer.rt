//! The bytes of an answer.

ghost use Rattle.std.specs.Prelude.{◌≡◌, ◌+◌, ◌≤◌, ◌++◌, ◌∷◌, [], length, IfOk, IsOk, OnOk};
ghost use Rattle.std.specs.Prelude.{OnErr, vec_len};
ghost use Rattle.std.specs.Fmt.{decimal};
ghost use Rattle.std.specs.Option.{option_map_or};
ghost use Rattle.htp_line.specs.Answering.{success, failure, WritesFor, HasSpareRoom};

use super::want::Memory;
use std::alloc::Global;

/// The most bytes of an id: the decimal digits of a `u32`.
pub const ID_LIMIT: usize = 10;

/// The bytes round an id and a text: the sign, a space and two line feeds.
pub const FRAME: usize = 4;

/// An id in its shortest form; nothing if there is none.
pub fn id_text(alloc: Global, id: Option<u32>) -> Result<Vec<u8>, Memory>
    ensures text { IfOk result (λ text. text.items ≡ option_map_or decimal id []) }
    ensures short { IfOk result (λ text. vec_len text ≤ ID_LIMIT) }
{
    match id {
        None => Ok(Vec::new(alloc)),
        Some(id) => Ok(id.to_string(alloc)?.as_bytes().to_vec(alloc)?),
    }
}

/// Writes a success at the end of `out`: `=`, the id in its shortest form if there is one, a space,
/// the text and two line feeds. It can't fail if there is room for it. GTP version 2, responses.
pub fn push_success(out: &mut Vec<u8>, id: &[u8], text: &[u8]) -> Result<(), Memory>
    requires short { length id.now ≤ ID_LIMIT }
    ensures text { WritesFor id.now (λ n. success n text.now) out.old.items out.new.items result }
    ensures err { OnErr result (out.new.items ≡ out.old.items) }
    ensures room { HasSpareRoom out.old (length id.now + length text.now + FRAME) → IsOk result }
{
    push_signed(out, b'=', id, text)
}

/// Writes a failure at the end of `out`: `?`, the id in its shortest form if there is one, a space,
/// the message and two line feeds. It can't fail if there is room for it. GTP version 2,
/// responses.
pub fn push_failure(out: &mut Vec<u8>, id: &[u8], text: &[u8]) -> Result<(), Memory>
    requires short { length id.now ≤ ID_LIMIT }
    ensures text { WritesFor id.now (λ n. failure n text.now) out.old.items out.new.items result }
    ensures err { OnErr result (out.new.items ≡ out.old.items) }
    ensures room { HasSpareRoom out.old (length id.now + length text.now + FRAME) → IsOk result }
{
    push_signed(out, b'?', id, text)
}

fn push_signed(out: &mut Vec<u8>, sign: u8, id: &[u8], text: &[u8]) -> Result<(), Memory>
    requires short { length id.now ≤ ID_LIMIT }
    ensures text { OnOk result
        (out.new.items ≡ out.old.items ++ sign ∷ id.now ++ 32 ∷ text.now ++ 10 ∷ 10 ∷ []) }
    ensures err { OnErr result (out.new.items ≡ out.old.items) }
    ensures room { HasSpareRoom out.old (length id.now + length text.now + FRAME) → IsOk result }
{
    out.reserve(id.len() + text.len() + FRAME)?;
    out.push(sign).unwrap();
    out.extend_from_slice(id).unwrap();
    out.push(b' ').unwrap();
    out.extend_from_slice(text).unwrap();
    out.extend_from_slice(b"\n\n").unwrap();
    Ok(())
}
