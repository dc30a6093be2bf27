//! The two players.

ghost use Rattle.std.specs.Prelude.{◌≡◌};

/// A player, and the colour of his stones. Black joins the first row to the last, White the first
/// column to the last.
#[derive(Clone, Copy, Debug, PartialEq, Eq)]
pub enum Colour {
    /// Joins the first row to the last.
    Black,
    /// Joins the first column to the last.
    White,
}

impl Colour {
    ghost use Rattle.hex_cells.specs.Colours.{colour_word, other_of};

    /// The other player.
    pub fn other(self) -> Colour
        ensures { result ≡ other_of self }
    {
        match self {
            Colour::Black => Colour::White,
            Colour::White => Colour::Black,
        }
    }

    /// The player's name in text: `black` or `white`.
    pub fn word(self) -> &'static [u8]
        ensures { result.now ≡ colour_word self }
    {
        match self {
            Colour::Black => b"black",
            Colour::White => b"white",
        }
    }
}
