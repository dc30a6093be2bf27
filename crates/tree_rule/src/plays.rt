//! What each kind of step tells the seat that makes it.

ghost use Rattle.tree_rule.specs.Plays.{draw_tells, look_tells, claim_tells, write_tells};
ghost use Rattle.tree_rule.specs.Plays.{publish_tells, add_tells, note_tells};
ghost use Rattle.tree_rule.specs.Plays.{owe_tells, give_tells};
ghost use Rattle.arena_rule.specs.Adds.{CountAdd};
ghost use Rattle.arena_rule.specs.Owing.{debtless};
ghost use Rattle.arena_rule.specs.Afters.{kept_part, given_part, joined};
ghost use Rattle.arena_rule.specs.Views.{SeatView, unseen_view};
ghost use Rattle.std.specs.Prelude.{ℕ, false};

use arena_rule::Account;
use atomic_table::{Join, Play, Split};
use std::marker::{Brand, PhantomData};

/// A draw.
pub(crate) struct Draws;

impl Play<u8, Account> for Draws {
    ghost then = { draw_tells };
}

/// A look.
pub(crate) struct Looks;

impl Play<u8, Account> for Looks {
    ghost then = { look_tells };
}

/// A claim.
pub(crate) struct Claims;

impl Play<u8, Account> for Claims {
    ghost then = { claim_tells };
}

/// A write.
pub(crate) struct Writes;

impl Play<u8, Account> for Writes {
    ghost then = { write_tells };
}

/// A publish.
pub(crate) struct Publishes;

impl Play<u8, Account> for Publishes {
    ghost then = { publish_tells };
}

/// An add.
pub(crate) struct Adds;

impl Play<u8, Account> for Adds {
    ghost then = { add_tells };
}

/// A note.
pub(crate) struct Notes;

impl Play<u8, Account> for Notes {
    ghost then = { note_tells };
}

/// How many workers a split gives to the new seat. Each split picks it.
pub(crate) trait Part {
    ghost part: { ℕ };
}

impl Part for Brand {
    ghost part = { 0 };
}

/// A split.
pub(crate) struct Splits<B> {
    part: PhantomData<B>,
}

impl<B: Part> Split<Account> for Splits<B> {
    ghost left = { λ d. debtless (kept_part d.view B.part) };

    ghost right = { λ d. debtless (given_part d.view B.part) };
}

/// What a join leaves the other seat with: a spent view of the tree's shape. Each join picks it.
pub(crate) trait Spent {
    ghost spent: { SeatView };
}

impl Spent for Brand {
    ghost spent = { unseen_view };
}

/// A join.
pub(crate) struct Joins<B> {
    spent: PhantomData<B>,
}

impl<B: Spent> Join<Account> for Joins<B> {
    ghost both = { λ d e. debtless (joined d.view e.view) };

    ghost spent = { debtless B.spent };
}

/// The add that a seat begins to owe. Each call picks it.
pub(crate) trait Owed {
    ghost add: { CountAdd };
}

impl Owed for Brand {
    ghost add = { record { word = 0; won = false } };
}

/// A load by which a seat begins to owe an add.
pub(crate) struct Owes<B> {
    add: PhantomData<B>,
}

impl<B: Owed> Play<u8, Account> for Owes<B> {
    ghost then = { owe_tells B.add };
}

/// An add of all that a seat owes to a word.
pub(crate) struct Gives;

impl Play<u8, Account> for Gives {
    ghost then = { give_tells };
}
