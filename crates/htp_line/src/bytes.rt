//! Texts and arguments, which contracts see as lists.

ghost use Rattle.std.specs.Prelude.{◌≡◌, List, ℕ, map};

use std::marker::Model;

/// A list of bytes.
#[derive(Debug, Drop)]
pub struct HtpText {
    items: Vec<u8>,
}

impl Model for HtpText {
    ghost use Rattle.std.specs.Prelude.{ℕ, List};

    ghost Value = { List ℕ };

    ghost view = { λ b. b.items.items };
}

impl HtpText {
    /// The bytes of this vector. It takes no memory.
    pub fn of(items: Vec<u8>) -> HtpText
        ensures { result ≡ items.items }
    {
        HtpText { items }
    }

    /// Lends the bytes.
    pub fn as_slice(&self) -> &[u8]
        ensures { result.now ≡ self.now }
    {
        &self.items
    }
}

/// The arguments of a request: a list of words.
#[derive(Debug, Drop)]
pub struct Args {
    items: Vec<HtpText>,
}

impl Model for Args {
    ghost use Rattle.std.specs.Prelude.{ℕ, List};

    ghost Value = { List (List ℕ) };

    ghost view = { λ a. a.items.items };
}

impl Args {
    /// The words of this vector. It takes no memory.
    pub fn of(items: Vec<HtpText>) -> Args
        ensures { result ≡ items.items }
    {
        Args { items }
    }

    /// Lends the words.
    pub fn as_slice(&self) -> &[HtpText]
        ensures { result.now ≡ self.now }
    {
        &self.items
    }
}
