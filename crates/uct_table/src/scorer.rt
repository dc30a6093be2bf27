//! Scores of the children of one block, which have a parent and a weight in common.

ghost use Rattle.std.specs.Prelude.{◌≡◌, ◌+◌, ◌*◌, ◌<◌, ◌≤◌, IsTrue};
ghost use Rattle.uct_table.specs.Scores.{bonus_of, score_of};

use super::reciprocal_roots::{TABLED_VISITS, reciprocal_root};
use super::scoring::{
    MOST_BAR, MOST_COUNT, MOST_WEIGHT, ROOT_SHIFT, is_mean_at_most, level, root, score,
};
use std::marker::Model;

/// A reciprocal root has 2^20th parts and a weight 2^8th, so the product of a factor and a
/// reciprocal root has 2^28 parts of a bonus.
const BOUND_SHIFT: u32 = 28;

/// More visits than the table has are quartered until the quotient is below 4 times 2 to this.
const LEAST_QUOTIENT_POWER: u32 = 8;

/// The parent of a block's children: what their scores have in common.
///
/// A search makes one for each block that it chooses in, and asks it of each child. Nearly every
/// child is settled by products: its bonus is bounded by a factor that is made once, times the
/// reciprocal root of its visits, however many these are; its mean by what stands before it is
/// rounded. Only a child whose score may be greater than the one that is kept is scored in full,
/// and one that was visited and never seen.
#[derive(Clone, Copy, Debug)]
pub struct Parent {
    visits: u32,
    weight: u32,
    /// Above the weight times the root of the level's 2^24th parts.
    factor: u64,
}

impl Model for Parent {
    ghost use Rattle.uct_table.specs.Choice.{ParentData};
    ghost use Rattle.uct_table.specs.Bounds.{IsParent};

    ghost Value = { ParentData };

    ghost view = { λ s. record { visits = s.visits; weight = s.weight; factor = s.factor } };

    ghost inverse = { λ p. record { visits = p.visits; weight = p.weight; factor = p.factor } };

    ghost invariant = { λ s. IsParent
        (record { visits = s.visits; weight = s.weight; factor = s.factor }) };
}

impl Parent {
    /// The parent with these visits, from 0 to 1,048,576, and this weight, from 0 to 1,024.
    #[tactic(auto, using(crate::proofs::Bounds::factor_bound, crate::proofs::Roots::isqrt_high))]
    pub fn of(visits: u32, weight: u32) -> Parent
        requires parent { visits ≤ MOST_COUNT }
        requires weight { weight ≤ MOST_WEIGHT }
        ensures visits { result.visits ≡ visits }
        ensures weight { result.weight ≡ weight }
    {
        let square = u64::from(weight) * u64::from(weight);
        let parts = u64::from(level(visits)) << ROOT_SHIFT;
        Parent {
            visits,
            weight,
            factor: u64::from(root(square * parts)) + 1,
        }
    }

    /// Whether products settle that the score of a child is at most `bar`; never for the bar 0.
    ///
    /// A search that keeps the best child's score asks this of each later child, with a bar that is
    /// no higher than that score, and takes the score of the few that are not low. The bar is from
    /// 0 to [`MOST_BAR`], counts are from 0 to 1,048,576, and v is at least 1.
    #[inline(always)]
    pub fn is_low(&self, bar: u64, v: u32, w: u32, a: u32, b: u32) -> bool
        requires bar { bar ≤ MOST_BAR }
        requires visited { 1 ≤ v }
        requires counts { (v ≤ MOST_COUNT) × (w ≤ MOST_COUNT)
            × (a ≤ MOST_COUNT) × (b ≤ MOST_COUNT) }
        ensures low { IsTrue result →
            score_of self.now.visits v w a b self.now.weight ≤ bar }
        ensures some { IsTrue result → 0 < bar }
    {
        let most = self.most_bonus(v);
        most < bar && is_mean_at_most(bar - most, v, w, a, b)
    }

    /// The score of a child. Counts are from 0 to 1,048,576, and v is at least 1.
    #[inline(always)]
    pub fn score(&self, v: u32, w: u32, a: u32, b: u32) -> u64
        requires visited { 1 ≤ v }
        requires counts { (v ≤ MOST_COUNT) × (w ≤ MOST_COUNT)
            × (a ≤ MOST_COUNT) × (b ≤ MOST_COUNT) }
        ensures { result ≡ score_of self.now.visits v w a b self.now.weight }
    {
        score(self.visits, v, w, a, b, self.weight)
    }

    // No less than the bonus of v visits: that of v quartered until the table has it, halved as
    // often, for the reciprocal root of a quarter is twice as great.
    #[tactic(auto, using(crate::proofs::Bounds::bonus_bound))]
    #[inline(always)]
    pub(crate) fn most_bonus(&self, v: u32) -> u64
        requires visited { 1 ≤ v }
        requires visits { v ≤ MOST_COUNT }
        ensures { bonus_of self.now.visits v self.now.weight ≤ result }
    {
        if v < TABLED_VISITS {
            return (self.factor * reciprocal_root(v)) >> BOUND_SHIFT;
        }
        let quarterings = (v.ilog2() - LEAST_QUOTIENT_POWER) / 2;
        let quotient = v >> (2 * quarterings);
        (self.factor * reciprocal_root(quotient)) >> (BOUND_SHIFT + quarterings)
    }
}
