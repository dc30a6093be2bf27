//! The thirteen reasons against a line of a certificate or its claim.

ghost use Rattle.std.specs.Prelude.{◌≡◌};
ghost use Rattle.win_cert.specs.Reasons.{number_of_reason};

/// A reason against a derivation line or the claim.
#[derive(Clone, Copy, Debug, PartialEq, Eq)]
pub enum Reason {
    /// A number that is named is not that of an earlier line with an entry of the kind taken.
    BadReference,
    /// An end of `adj` is a stone of the opponent.
    WrongColour,
    /// The elements of `adj` are not near.
    NotNeighbours,
    /// The entries of `and` or `key` do not share exactly one element.
    NoCommonMiddle,
    /// A cell is in both carriers of `and` or `key`.
    CarriersMeet,
    /// An end of `and` or `key` other than the middle is a cell of the other entry's carrier.
    EndInCarrier,
    /// The middle of `and` is an empty cell, or that of `key` is a group.
    MiddleKind,
    /// The entries of `or` have not all the same elements.
    EndsDiffer,
    /// A cell is in all the carriers of `or` or `cases`.
    CommonCell,
    /// An entry of `move`, `cases` or the claim is not one of the player's edges.
    NotEdges,
    /// A cell of `put` or `move` is not empty.
    BadStone,
    /// An entry's scope is not the one in which the line takes entries.
    WrongScope,
    /// The player is not joined on the board of the scope of `done`.
    NotJoined,
}

impl Reason {
    /// The number of the reason, 1 to 13, by which texts name it.
    pub fn number(self) -> u32
        ensures { result ≡ number_of_reason self }
    {
        match self {
            Reason::BadReference => 1,
            Reason::WrongColour => 2,
            Reason::NotNeighbours => 3,
            Reason::NoCommonMiddle => 4,
            Reason::CarriersMeet => 5,
            Reason::EndInCarrier => 6,
            Reason::MiddleKind => 7,
            Reason::EndsDiffer => 8,
            Reason::CommonCell => 9,
            Reason::NotEdges => 10,
            Reason::BadStone => 11,
            Reason::WrongScope => 12,
            Reason::NotJoined => 13,
        }
    }
}
