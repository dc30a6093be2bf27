//! The pass of a game: it is had at the gate, and the game takes it.

ghost use Rattle.std.specs.Prelude.{◌≡◌};

use search_team::Gate;
use std::marker::Model;

/// That the gate was passed with the number of a game, which is what contracts see of it.
///
/// [`pass_gate`] makes one and nothing else does, it can't be copied or dropped, and a game takes
/// it: so the gate is passed before the game's first move, and once for each game.
pub struct GatePass {
    number: u32,
}

impl Model for GatePass {
    ghost use Rattle.std.specs.Prelude.{ℕ};

    ghost Value = { ℕ };

    ghost view = { λ p. p.number };
}

impl GatePass {
    /// The number of the game that takes the pass.
    pub fn number(self) -> u32
        ensures { result ≡ self }
    {
        let GatePass { number } = self;
        number
    }
}

/// Passes the gate with this number.
pub fn pass_gate<G: Gate>(gate: &G, number: u32) -> GatePass
    ensures { result ≡ number }
{
    gate.pass(number);
    GatePass { number }
}
