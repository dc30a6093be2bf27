//! Lists of plain items, which contracts see as lists.

ghost use Rattle.std.specs.Prelude.{◌≡◌};

use std::marker::Model;

/// The bytes of a text.
#[derive(Debug, Drop)]
pub struct CertText {
    items: Vec<u8>,
}

impl Model for CertText {
    ghost use Rattle.std.specs.Prelude.{ℕ, List};

    ghost Value = { List ℕ };

    ghost view = { λ b. b.items.items };
}

impl CertText {
    /// The bytes of this vector. It takes no memory.
    pub fn of(items: Vec<u8>) -> CertText
        ensures { result ≡ items.items }
    {
        CertText { items }
    }

    /// Lends the bytes.
    pub fn as_slice(&self) -> &[u8]
        ensures { result.now ≡ self.now }
    {
        &self.items
    }
}

/// The numbers of lines.
#[derive(Debug, Drop)]
pub struct Numbers {
    items: Vec<u32>,
}

impl Model for Numbers {
    ghost use Rattle.std.specs.Prelude.{ℕ, List};

    ghost Value = { List ℕ };

    ghost view = { λ n. n.items.items };
}

impl Numbers {
    /// The numbers of this vector. It takes no memory.
    pub fn of(items: Vec<u32>) -> Numbers
        ensures { result ≡ items.items }
    {
        Numbers { items }
    }

    /// Lends the numbers.
    pub fn as_slice(&self) -> &[u32]
        ensures { result.now ≡ self.now }
    {
        &self.items
    }
}
