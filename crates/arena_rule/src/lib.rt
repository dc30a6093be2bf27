//! The arena rule: what holds of a shared tree between any two steps of its workers, and the law
//! that it is kept.
//!
//! **Nouns.** A *seat* stands for one or more workers of one tree. Its *view* is what is known of
//! it by its own steps alone (`SeatView`): its ticket, its walk in flight, the block that it holds,
//! the blocks whose links it knows, its recorded walks and its loads. A view *fits* a step
//! (specs/Fits.antt), a step *may give* an answer (specs/Answers.antt), and after it the word and
//! the view are told by the answer (specs/Afters.antt). An *arena* is the words of the tree and
//! the view of each seat (specs/Runs.antt). The *rule* is a list of parts, each a definition with
//! a sentence of its own (specs/Parts.antt, specs/Bounds.antt, specs/Rule.antt).
//!
//! A seat may *owe* adds to seen words ([`Account`], specs/Owing.antt): its walks count them as
//! made, and the words get them later. The *settled* words have all that is owed.
//!
//! **A caller** makes no value here: it cites the laws. One word is changed at a time, by any seat
//! whose view fits.
//!
//! **What is proved.** Each step that fits keeps the rule, and its answer is one that the step may
//! give ([`steps`]). A split and a join keep it ([`splits`], [`joins`]), and it holds of the
//! opening words ([`begins`]). So it holds along every run ([`runs`]). The adds of a walk are those
//! of the exact counts ([`adds_are_exact`]), and the counts are those of the records and of the
//! adds in flight ([`counts_are_of_records`]). If one seat is left and all workers have ended, the
//! tree is closed ([`closes`]). A view stays in order ([`views_stay_in_order`]), what a seat knows
//! is never false later ([`known_blocks_stay`]), and a held block is named by no link
//! ([`held_blocks_are_unnamed`]). With debts all this holds of the settled words: a step, an add
//! that is owed and a debt that is given keep it ([`steps_with_debts`], [`debts_are_kept`]), and
//! seats that owe nothing split, join and end as before ([`seats_without_debts`]).
//!
//! **What is only tested, or not said.** No law says which schedule happens, that a
//! compare-exchange wins, or that there is progress.
//!
//! **Limits.** None of its own. It takes no memory and no handle.
//!
//! **Why so.**
//!
//! - The global invariant has a crate of its own above tree_words, so that a change in it doesn't
//!   check anew what stands on the closed tree alone. It names `atomic_table` for that crate's
//!   lemmas on lists alone.
//! - A view is no struct: `SeatView` is a record of specs, and no value of [`Account`] is made. So
//!   a view can have the tree's own lists of blocks, and no law is stated twice.
//! - What a seat knows is a list of whole blocks. A block is determined by its first word and its
//!   parent's board, so a look at its header or moves teaches nothing.
//! - A new link names a block that lies behind the node, inside the area, and shares no word with a
//!   known block or the held one. Without this one word could be the tally of a node and the header
//!   of another block, each answer being allowed.
//! - The part Sums is in whole words: a tally is the sum of what all updates add, 2^32 and a win.
//!   An Add is then one number more, with no bound; that visits and wins are the exact counts is
//!   [`adds_are_exact`], that no half overflows follows from `few`, and that wins are at most
//!   visits is [`wins_are_among_visits`].
//! - Sums go over walks and not over records: an empty record would read as a visit of the root.
//! - What a seat owes stands beside its view and not in it: an add that is owed is an Add of the
//!   settled words, and what is given changes nothing there. So no part of the rule and none of its
//!   laws speaks of debts. A seat owes to seen words alone, of which the rule reads no load.
//! - Spent views have width 0 and are empty, so each sum is 0 there and no part has an exception. A
//!   joined view has nothing in hand: by the rule all its workers have ended, which a view alone
//!   doesn't know.
//! - A held block has a word at least, or it would not follow that no link names it. A Publish asks
//!   what a Claim asks (`MayGetBlock`), so no block without a node is linked.
//! - Done fits once all workers have ended, and changes nothing; a caller asks no Done. A Note
//!   forgets all loads, so the bounds on growth rest on the loads of one walk alone.
#![tactic(auto)]

mod laws;
mod views;

pub use laws::{
    adds_are_exact, begins, closes, counts_are_of_records, debts_are_kept, held_blocks_are_unnamed,
    joins, known_blocks_stay, runs, seats_without_debts, splits, steps, steps_with_debts,
    views_stay_in_order, wins_are_among_visits,
};
pub use views::{Account, MOST_OWED_VISITS};
