//! Threats: ways in which the other player wins if he is to place next.

ghost use Rattle.std.specs.Prelude.{◌≡◌};

use hex_cells::CellSet;
use std::marker::Model;
use win_cert::Cert;

/// A certificate that the other player wins if he is to place next, and the carrier of its claim:
/// each move outside it loses.
#[derive(Debug, Drop)]
pub struct Threat {
    pub cert: Cert,
    pub carrier: CellSet,
}

/// A list of threats.
#[derive(Debug, Drop)]
pub struct Threats {
    items: Vec<Threat>,
}

impl Model for Threats {
    ghost use Rattle.std.specs.Prelude.{List};
    ghost use Rattle.hex_plan.specs.declared.threats.Threat.{Threat};

    ghost Value = { List Threat };

    ghost view = { λ t. t.items.items };
}

impl Threats {
    /// The list of the threats of this vector. It takes no memory.
    pub fn of(items: Vec<Threat>) -> Threats
        ensures { result ≡ items.items }
    {
        Threats { items }
    }

    /// Lends the threats.
    pub fn as_slice(&self) -> &[Threat]
        ensures { result.now ≡ self.now }
    {
        &self.items
    }
}
