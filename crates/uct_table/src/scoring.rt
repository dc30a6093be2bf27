//! The level, the root and the score.

ghost use Rattle.std.specs.Prelude.{◌≡◌, ◌+◌, ◌*◌, ◌/◌, ◌^◌, ◌<◌, ◌≤◌, ◌==◌, IsTrue};
ghost use Rattle.uct_table.specs.Scores.{isqrt, level_of, share_of, mean_of, bonus_of, score_of};

use std::num::{nearest_u64_to_f64, saturating_f64_to_u64};

/// The greatest count that a score takes, of visits or of wins: products of two counts and a
/// share's parts stay far below 2^64.
pub const MOST_COUNT: u32 = 1_048_576;

/// The greatest weight that a score takes.
pub const MOST_WEIGHT: u32 = 1_024;

/// Parts of a share, a mean and a score: 65,536 is a mean of 1.
const SHARE_PARTS: u64 = 65_536;

/// Parts of a level: 256 is a doubling of visits.
const LEVEL_PARTS: u32 = 256;

/// No level is above this: [`MOST_COUNT`] is 2^20, and there are 256 parts for each of 21 powers.
pub const MOST_LEVEL: u32 = 21 * LEVEL_PARTS;

/// How many visits the seen counts of a child weigh.
const SEEN_WEIGHT: u64 = 64;

/// A level is taken in 2^24th parts before its root, so that the root has 2^12th parts.
pub const ROOT_SHIFT: u32 = 24;

/// Parts of a weight: 256 is a weight of 1.
const WEIGHT_PARTS: u64 = 256;

/// A root that is guessed is at most this, so that its square times a count fits.
const GREATEST_GUESS: u64 = (1 << 20) - 1;

/// The level of p visits, from 0 to 1,048,576: the binary logarithm in 256th parts, straight
/// between powers of two, and 0 for no visit. For p at least 1 and b the floor of its binary
/// logarithm it is `256·b + floor(256·(p - 2^b) / 2^b)`.
#[tactic(auto, using(crate::proofs::Roots::log2_is), unfolding(crate::specs::Scores::level_of))]
pub fn level(p: u32) -> u32
    requires { p ≤ MOST_COUNT }
    ensures value { result ≡ level_of p }
    ensures bound { result ≤ MOST_LEVEL }
{
    if p == 0 {
        return 0;
    }
    let power = p.ilog2();
    LEVEL_PARTS * power + ((LEVEL_PARTS * (p - (1 << power))) >> power)
}

/// The greatest number whose square is at most x.
///
/// The root that the processor gives is taken if its square shows that it is right, as it is
/// for every x below 2^52.
#[tactic(auto, using(crate::proofs::Roots::isqrt_is))]
pub fn root(x: u64) -> u32
    ensures { result ≡ isqrt x }
{
    let guess = saturating_f64_to_u64(nearest_u64_to_f64(x).sqrt()).min(u64::from(u32::MAX));
    let square = guess * guess;
    if square <= x && x - square <= 2 * guess {
        return guess as u32;
    }
    x.isqrt() as u32
}

/// The score of a child with v visits, w wins, a seen visits and b seen wins below p visits, with
/// the weight c.
///
/// With `m = floor(65536·w / v)`, and `mean` the mean of m with weight v and of
/// `floor(65536·b / a)` with weight 64, or m if a is 0, it is
/// `mean + floor(c·root(floor(level(p)·2^24 / v)) / 256)`. Counts are from 0 to 1,048,576, v at
/// least 1, and c is from 0 to 1,024. It is defined for w above v, b above a and p below v too.
pub fn score(p: u32, v: u32, w: u32, a: u32, b: u32, c: u32) -> u64
    requires parent { p ≤ MOST_COUNT }
    requires visited { 1 ≤ v }
    requires visits { v ≤ MOST_COUNT }
    requires wins { w ≤ MOST_COUNT }
    requires seen { a ≤ MOST_COUNT }
    requires seen_wins { b ≤ MOST_COUNT }
    requires weight { c ≤ MOST_WEIGHT }
    ensures { result ≡ score_of p v w a b c }
{
    mean(v, w, a, b) + bonus(p, v, c)
}

/// The mean of the visits and of the seen visits.
#[tactic(auto, unfolding(crate::specs::Scores::mean_of))]
pub fn mean(v: u32, w: u32, a: u32, b: u32) -> u64
    requires visited { 1 ≤ v }
    requires visits { v ≤ MOST_COUNT }
    requires wins { w ≤ MOST_COUNT }
    requires seen { a ≤ MOST_COUNT }
    requires seen_wins { b ≤ MOST_COUNT }
    ensures value { result ≡ mean_of v w a b }
    ensures bound { result < 2 ^ 60 }
{
    let own = share(w, v);
    if a == 0 {
        return own;
    }
    let visits = u64::from(v);
    (visits * own + SEEN_WEIGHT * share(b, a)) / (visits + SEEN_WEIGHT)
}

/// The greatest bar of a score that products are asked about: no mean of wins that are at most the
/// visits is above it, and up to it the products of [`is_mean_at_most`] fit.
pub const MOST_BAR: u64 = (1 << 20) - 1;

/// Whether the mean would be at most `floor`, which is at most [`MOST_BAR`], if none of its parts
/// were rounded down; so the mean is. Told by products alone.
#[tactic(auto, using(crate::proofs::Means::mean_is_low))]
pub fn is_mean_at_most(floor: u64, v: u32, w: u32, a: u32, b: u32) -> bool
    requires floor { floor ≤ MOST_BAR }
    requires visited { 1 ≤ v }
    requires visits { v ≤ MOST_COUNT }
    requires wins { w ≤ MOST_COUNT }
    requires seen { a ≤ MOST_COUNT }
    requires seen_wins { b ≤ MOST_COUNT }
    ensures { IsTrue result → mean_of v w a b ≤ floor }
{
    let seen = u64::from(a);
    let won = u64::from(w) * seen + SEEN_WEIGHT * u64::from(b);
    SHARE_PARTS * won < (floor + 1) * ((u64::from(v) + SEEN_WEIGHT) * seen)
}

/// What few visits add.
#[tactic(auto, unfolding(crate::specs::Scores::bonus_of))]
pub fn bonus(p: u32, v: u32, c: u32) -> u64
    requires parent { p ≤ MOST_COUNT }
    requires visited { 1 ≤ v }
    requires visits { v ≤ MOST_COUNT }
    requires weight { c ≤ MOST_WEIGHT }
    ensures value { result ≡ bonus_of p v c }
    ensures bound { result < 2 ^ 42 }
{
    let parts = u64::from(level(p)) << ROOT_SHIFT;
    u64::from(c) * u64::from(root_of_quotient(parts, v)) / WEIGHT_PARTS
}

/// The share of wins among visits.
fn share(wins: u32, visits: u32) -> u64
    requires visited { 1 ≤ visits }
    requires visits { visits ≤ MOST_COUNT }
    requires wins { wins ≤ MOST_COUNT }
    ensures value { result ≡ share_of wins visits }
    ensures bound { result ≤ SHARE_PARTS * MOST_COUNT }
{
    SHARE_PARTS * u64::from(wins) / u64::from(visits)
}

/// The root of n / d, rounded down. The root of a quotient that is not rounded is the same, so the
/// processor's float root is taken if its square shows that it is right, as it is for every n
/// below 2^48.
#[tactic(auto, using(crate::proofs::Roots::root_is))]
fn root_of_quotient(n: u64, d: u32) -> u32
    requires positive { 0 < d }
    requires small { d ≤ MOST_COUNT }
    ensures { result ≡ isqrt (n / d) }
{
    let divisor = u64::from(d);
    let ratio = nearest_u64_to_f64(n) / f64::from(d);
    let guess = saturating_f64_to_u64(ratio.sqrt()).min(GREATEST_GUESS);
    if guess * guess * divisor <= n && n < (guess + 1) * (guess + 1) * divisor {
        return guess as u32;
    }
    root(n / divisor)
}
