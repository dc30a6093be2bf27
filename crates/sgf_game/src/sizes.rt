//! The number of a game and the size of its board, as the root names them.

ghost use Rattle.std.specs.Prelude.{◌≡◌, ◌<◌};
ghost use Rattle.sgf_game.specs.Setup.{is_hex, is_size, size_named, size_of};

use super::values::first_named;
use hex_cells::{DECIMAL_LEN, Size, write_decimal};
use sgf_tree::Node;

/// Whether the root's first GM is 11, the number of Hex among the games of SGF.
#[tactic(auto, using(crate::proofs::Texts::same_text))]
pub fn is_hex(root: &Node) -> bool
    ensures { result ≡ is_hex root.now }
{
    match first_named(root, b"GM") {
        Some(value) => value == b"11".as_slice(),
        None => false,
    }
}

/// Whether the text is the number, or twice the number with `:` between.
fn is_size(text: &[u8], number: u32) -> bool
    requires { number < 100 }
    ensures { result ≡ is_size text.now number }
{
    let mut digits = [0; DECIMAL_LEN];
    let length = write_decimal(number, &mut digits);
    let written = &digits[..length];
    match text.strip_prefix(written) {
        Some([]) => true,
        Some([b':', rest @ ..]) => rest == written,
        _ => false,
    }
}

/// The size that a text names.
fn size_named(text: &[u8]) -> Option<Size>
    ensures { result ≡ size_named text.now }
{
    for n in 1..Size::MAX + 1 {
        if is_size(text, n) {
            return Size::of(n);
        }
    }
    None
}

/// The size that the root's first SZ names, and 11 without SZ.
pub fn size_of(root: &Node) -> Option<Size>
    ensures { result ≡ size_of root.now }
{
    match first_named(root, b"SZ") {
        Some(value) => size_named(value),
        None => Size::of(Size::MAX),
    }
}
