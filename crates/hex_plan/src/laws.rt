//! Laws of good turns.

ghost use Rattle.std.specs.Prelude.{◌≡◌, ℕ};
ghost use Rattle.tree_words.specs.declared.settings.Knobs.{Knobs};
ghost use Rattle.hex_plan.specs.Good.{IsGood};
ghost use Rattle.hex_plan.specs.Laws.{AreDetermined, AreReportedInSequence, IsCertified};
ghost use Rattle.hex_plan.specs.Laws.{LosesOutsideThreats, LosesWhereLost};
ghost use Rattle.hex_plan.specs.Turns.{TurnData};
ghost use Rattle.hex_plan.specs.declared.settings.Means.{Means};

/// A law, with nothing to run: if the plan of a good turn is a win, its player wins after its cell
/// against every reply.
pub fn certified_moves_win()
    ensures { (knobs : Knobs) (means : Means) (t : TurnData) → IsGood knobs means t
        → IsCertified t }
{}

/// A law, with nothing to run: after a move outside the carrier of a threat of a good turn, the
/// other player wins with himself to move.
pub fn moves_outside_a_threat_lose()
    ensures { (knobs : Knobs) (means : Means) (t : TurnData) → IsGood knobs means t
        → LosesOutsideThreats t }
{}

/// A law, with nothing to run: if the plan of a good turn says that the board is lost, the other
/// player wins after each move.
pub fn lost_boards_lose()
    ensures { (knobs : Knobs) (means : Means) (t : TurnData) → IsGood knobs means t
        → LosesWhereLost t }
{}

/// A law, with nothing to run, of one worker if no connections are looked for. The report of a good
/// turn is that of the sequential search, and the knobs, the board, the player and the number
/// determine the turn's cell, its report and its texts.
pub fn one_worker_decides()
    ensures report { (knobs : Knobs) → knobs.workers ≡ 1 → AreReportedInSequence knobs }
    ensures same { (knobs : Knobs) → knobs.workers ≡ 1 → AreDetermined knobs }
{}
