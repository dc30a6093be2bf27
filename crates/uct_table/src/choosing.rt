//! Which of two children is preferred.

ghost use Rattle.std.specs.Prelude.{◌≡◌, ◌≤◌, ℕ, List};
ghost use Rattle.uct_table.specs.Choice.{Child, child_with, is_better, kept_of, choice_of};

use super::scoring::{MOST_COUNT, MOST_WEIGHT, score};

/// Whether the second child, with visits v2, wins w2, seen visits a2 and seen wins b2, is strictly
/// preferred to the first, below p visits and with the weight c.
///
/// True exactly if v1 is at least 1 and either v2 is 0 or the second score is the greater. So a
/// child without visits is kept against every other, and equal scores keep the first. Counts are
/// from 0 to 1,048,576, v1 and v2 may be 0, and c is from 0 to 1,024.
#[tactic(auto, unfolding(crate::specs::Choice::is_better))]
pub fn better(
    p: u32,
    v1: u32,
    w1: u32,
    a1: u32,
    b1: u32,
    v2: u32,
    w2: u32,
    a2: u32,
    b2: u32,
    c: u32,
) -> bool
    requires parent { p ≤ MOST_COUNT }
    requires first { (v1 ≤ MOST_COUNT) × (w1 ≤ MOST_COUNT) × (a1 ≤ MOST_COUNT) × (b1 ≤ MOST_COUNT) }
    requires second { (v2 ≤ MOST_COUNT) × (w2 ≤ MOST_COUNT) × (a2 ≤ MOST_COUNT)
        × (b2 ≤ MOST_COUNT) }
    requires weight { c ≤ MOST_WEIGHT }
    ensures { result ≡ is_better p c (child_with v1 w1 a1 b1) (child_with v2 w2 a2 b2) }
{
    v1 > 0 && (v2 == 0 || score(p, v1, w1, a1, b1, c) < score(p, v2, w2, a2, b2, c))
}

/// The law of `better`: going through a list of children from the first on, and keeping the one
/// that is preferred, gives Choice, the first without visits or else the first of the greatest
/// score.
pub fn going_through_gives_choice()
    ensures { (p c : ℕ) (children : List Child) → kept_of p c children ≡ choice_of p c children }
{}
