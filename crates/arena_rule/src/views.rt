//! What is seen of a seat.

use std::marker::Model;

/// All workers together may owe so many visits to a word, and one each: so far a seen word may lag
/// behind the walks that were made. With 32 or 128 in its place a search took as long.
pub const MOST_OWED_VISITS: u64 = 64;

/// A seat's view, and the adds that it owes. No value of it is made; contracts see it as a
/// `Debtor`.
pub struct Account {
    nothing: u8,
}

impl Model for Account {
    ghost use Rattle.arena_rule.specs.Owing.{Debtor, unseen_debtor};

    ghost Value = { Debtor };

    ghost view = { λ _. unseen_debtor };
}
