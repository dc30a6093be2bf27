//! The law of the arena rule, as functions that do nothing: their contracts are the law.

ghost use Rattle.std.specs.Prelude.{ℕ, List};
ghost use Rattle.tree_words.specs.Settings.{Setting, IsSetting};
ghost use Rattle.tree_words.specs.Words.{root_at};
ghost use Rattle.tree_words.specs.Blocks.{LinkedBlock, InOrder};
ghost use Rattle.arena_rule.specs.Views.{SeatView};
ghost use Rattle.arena_rule.specs.Adds.{AddExactly};
ghost use Rattle.arena_rule.specs.IsView.{IsView};
ghost use Rattle.arena_rule.specs.Runs.{Arena, RuleHolds, opening_arena, workers_arena};
ghost use Rattle.arena_rule.specs.Runs.{StepsKeep, StepsMayAnswer, SplitsKeep, JoinsKeep, RunsKeep};
ghost use Rattle.arena_rule.specs.Closed.{EndsClosed, EndsWithAllWalks, CountsRecords};
ghost use Rattle.arena_rule.specs.Shown.{KnowsShown, KeepsKnown, HoldsUnnamed, WinsAmongVisits};
ghost use Rattle.arena_rule.specs.Shown.{StepsKeepOrder, SplitsKeepOrder, JoinsKeepOrder};
ghost use Rattle.arena_rule.specs.Owing.{OwingArena, OwingHolds, OwingStepsKeep};
ghost use Rattle.arena_rule.specs.Owing.{OwingStepsMayAnswer, OwesKeep, GivesKeep};
ghost use Rattle.arena_rule.specs.Owing.{OwingSplitsKeep, OwingJoinsKeep, OwesAtSeenWords};
ghost use Rattle.arena_rule.specs.Owing.{LagsLittle};
ghost use Rattle.arena_rule.specs.Owing.{OwingEndsClosed};

/// The law of a step: if a seat's view fits a step, the rule holds after it, and the answer is one
/// that the step may give. It does nothing.
pub fn steps()
    ensures rule { (s : Setting) (a : Arena) → RuleHolds s a → StepsKeep s a }
    ensures answer { (s : Setting) (a : Arena) → RuleHolds s a → StepsMayAnswer a }
{}

/// The law of a split: the rule holds after it. It does nothing.
pub fn splits()
    ensures { (s : Setting) (a : Arena) → RuleHolds s a → SplitsKeep s a }
{}

/// The law of a join: the rule holds after it. It does nothing.
pub fn joins()
    ensures { (s : Setting) (a : Arena) → RuleHolds s a → JoinsKeep s a }
{}

/// The law of the beginning: the rule holds of the opening words with the opening view, and with K
/// views of width 1. It does nothing.
pub fn begins()
    ensures one { (s : Setting) → IsSetting s → RuleHolds s (opening_arena s) }
    ensures many { (s : Setting) → IsSetting s → RuleHolds s (workers_arena s) }
{}

/// The law of a run: for every list of steps, splits and joins by any seats whose views fit, the
/// rule holds after it if it holds before, and so between any two of them. It does nothing.
pub fn runs()
    ensures { (s : Setting) (a : Arena) → RuleHolds s a → RunsKeep s a }
{}

/// The law of adds: what the adds of a walk add to each tally and each seen word is what the exact
/// counts have of it. It does nothing.
pub fn adds_are_exact()
    ensures { (s : Setting) (blocks : List LinkedBlock) (k leaf : ℕ) → InOrder (root_at s) blocks
        → AddExactly s blocks k leaf }
{}

/// The law of wins: the wins of a node of the tree are at most its visits, and its seen wins at
/// most its seen visits. It does nothing.
pub fn wins_are_among_visits()
    ensures { (s : Setting) (a : Arena) (rule : RuleHolds s a) → WinsAmongVisits s a rule }
{}

/// The law of records: the counts of each node are those of the records, if a record is not 0,
/// and of the adds made in flight. It does nothing.
pub fn counts_are_of_records()
    ensures { (s : Setting) (a : Arena) (rule : RuleHolds s a) → CountsRecords s rule.blocks a }
{}

/// The law of the end: if one seat is left that stands for all workers, and they have ended, the
/// tree is closed, and the number of each playout stands in the seat's walks once. It does nothing.
pub fn closes()
    ensures closed { (s : Setting) (a : Arena) → RuleHolds s a → EndsClosed s a }
    ensures walks { (s : Setting) (a : Arena) → RuleHolds s a → EndsWithAllWalks s a }
{}

/// The law of views in order: a step whose answer it may give keeps a view in order, a split both
/// views, and a join the one that is left. It does nothing.
pub fn views_stay_in_order()
    ensures step { (v : SeatView) → IsView v → StepsKeepOrder v }
    ensures split { (v : SeatView) → IsView v → SplitsKeepOrder v }
    ensures join { (v : SeatView) → IsView v → JoinsKeepOrder v }
{}

/// The law of known blocks: what a seat knows the words show, in every state of the rule, and it
/// stays known after each of the seat's steps; so it is never false later. It does nothing.
pub fn known_blocks_stay()
    ensures shown { (s : Setting) (a : Arena) → RuleHolds s a → KnowsShown a }
    ensures kept { (v : SeatView) → KeepsKnown v }
{}

/// The law of held blocks: no link of a node of the tree names a block that a seat holds. It does
/// nothing.
pub fn held_blocks_are_unnamed()
    ensures { (s : Setting) (a : Arena) (rule : RuleHolds s a) → HoldsUnnamed s a rule }
{}

/// The law of a step with debts: if a seat's view fits a step, the rule holds of the settled words
/// after it, and the answer, which is what the words have, is one that the step may give. It does
/// nothing.
pub fn steps_with_debts()
    ensures rule { (s : Setting) (a : OwingArena) → OwingHolds s a → OwingStepsKeep s a }
    ensures answer { (s : Setting) (a : OwingArena) → OwingHolds s a → OwingStepsMayAnswer a }
{}

/// The law of debts: the rule holds after an add that is owed, and after what is owed to a word is
/// given; and only seen words of nodes of the tree are owed to. It does nothing.
pub fn debts_are_kept()
    ensures owes { (s : Setting) (a : OwingArena) → OwingHolds s a → OwesKeep s a }
    ensures gives { (s : Setting) (a : OwingArena) → OwingHolds s a → GivesKeep s a }
    ensures words { (s : Setting) (a : OwingArena) (rule : OwingHolds s a)
        → OwesAtSeenWords s a rule }
    ensures lag { (s : Setting) (a : OwingArena) → OwingHolds s a → LagsLittle s a }
{}

/// The law of seats that owe nothing: the rule holds after a split and a join of them, and if one
/// is left that stands for all workers, and they have ended, the tree is closed. It does nothing.
pub fn seats_without_debts()
    ensures split { (s : Setting) (a : OwingArena) → OwingHolds s a → OwingSplitsKeep s a }
    ensures join { (s : Setting) (a : OwingArena) → OwingHolds s a → OwingJoinsKeep s a }
    ensures closed { (s : Setting) (a : OwingArena) → OwingHolds s a → OwingEndsClosed s a }
{}
