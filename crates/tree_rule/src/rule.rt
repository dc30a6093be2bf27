//! The rule of the table.

use arena_rule::Account;
use atomic_table::{Shared, TableRule};
use tree_words::Shape;

/// The arena rule with debts, of the table's words and of its seats. The table has no slots.
pub struct ArenaRule;

impl TableRule<u8, Account, Shape> for ArenaRule {
    ghost use Rattle.tree_rule.specs.Tables.{HoldsArenaRule, first_view};

    ghost holds = { HoldsArenaRule };

    ghost first = { first_view };
}

/// The table, as the seats of a tree share it.
pub(crate) type SharedWords = Shared<u8, Account, Shape, ArenaRule>;
