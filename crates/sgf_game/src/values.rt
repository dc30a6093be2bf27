//! The values of a node's properties, without the white space at their ends.

ghost use Rattle.std.specs.Prelude.{◌≡◌, reverse, MatchOption, Some, None};
ghost use Rattle.std.specs.Str.{bytes_eq, str_eq_ignore_ascii_case};
ghost use Rattle.sgf_game.specs.Values.{without_front_space, trimmed, has_named};
ghost use Rattle.sgf_game.specs.Values.{first_named};

use sgf_tree::{Node, Prop, SgfText, is_white_space};

/// The text without the white space with which it begins.
fn without_front_space(text: &[u8]) -> &[u8]
    ensures { result.now ≡ without_front_space text.now }
{
    let mut rest = text;
    while let [first, more @ ..] = rest {
        if !is_white_space(*first) {
            break;
        }
        rest = more;
    }
    rest
}

/// The text without the white space at its end.
fn without_back_space(text: &[u8]) -> &[u8]
    ensures { result.now ≡ reverse (without_front_space (reverse text.now)) }
{
    let mut rest = text;
    while let [more @ .., last] = rest {
        if !is_white_space(*last) {
            break;
        }
        rest = more;
    }
    rest
}

/// A value without the white space at both ends.
pub fn trimmed(value: &SgfText) -> &[u8]
    ensures { result.now ≡ trimmed value.now }
{
    without_back_space(without_front_space(value.as_slice()))
}

/// Whether the property has this name.
#[tactic(auto, using(crate::proofs::Texts::same_text))]
pub fn is_named(prop: &Prop, name: &[u8]) -> bool
    ensures { result ≡ bytes_eq prop.now.name name.now }
{
    prop.name.as_slice() == name
}

/// Whether the text is this word, each letter in either case.
#[tactic(auto, using(crate::proofs::Texts::same_text))]
pub fn spells(text: &[u8], word: &[u8]) -> bool
    ensures { result ≡ str_eq_ignore_ascii_case text.now word.now }
{
    text.eq_ignore_ascii_case(word)
}

/// Whether the node has a property of this name.
pub fn has_named(node: &Node, name: &[u8]) -> bool
    ensures { result ≡ has_named name.now node.now }
{
    for prop in node.props.as_slice() {
        if is_named(prop, name) {
            return true;
        }
    }
    false
}

/// The first value that the node has under this name.
pub fn first_named<'a>(node: &'a Node, name: &[u8]) -> Option<&'a [u8]>
    ensures { let first = first_named name.now node.now in
        MatchOption result (first ≡ None) (λ value. first ≡ Some value.now) }
{
    for prop in node.props.as_slice() {
        if is_named(prop, name) {
            if let [value, ..] = prop.values.as_slice() {
                return Some(trimmed(value));
            }
        }
    }
    None
}
