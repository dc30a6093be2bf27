//! Adds to seen words that a worker holds back, and gives later in one step.
//!
//! An add that is held back makes one give more at most, and the end one for each slot: nothing is
//! tried again, and nobody is waited for.

ghost use Rattle.std.specs.Prelude.{◌≡◌, ◌≢◌, ◌<◌, ◌≤◌, ◌*◌, ◌^◌, ℕ, Bool, [], slice_index};
ghost use Rattle.std.specs.Prelude.{None};
ghost use Rattle.tree_words.specs.Settings.{Setting};
ghost use Rattle.tree_words.specs.declared.settings.TheConstants.{MOST_WORKERS};
ghost use Rattle.tree_words.specs.declared.steps.Op.TheVariants.{Add, Done};
ghost use Rattle.arena_rule.specs.Fits.{FitsStep};
ghost use Rattle.arena_rule.specs.Afters.{after};
ghost use Rattle.arena_rule.specs.Answers.{MayAnswer};
ghost use Rattle.arena_rule.specs.Owing.{IsSeenWord};
ghost use Rattle.tree_rule.specs.Seats.{IsOf};
ghost use Rattle.search_team.specs.Debts.{slot_of, HoldsDebts};

use arena_rule::MOST_OWED_VISITS;
use tree_rule::{Tree, TreeSeat};
use tree_words::Op;
use tree_words::layout::{NODE_WORDS, VISIT};

/// How many seen words a worker can hold back at a time. With a quarter of them four workers took
/// some 5 % longer for 100,000 playouts on size 11, since more words wanted the same slot.
pub(crate) const SLOTS: usize = 16_384;

/// A seen word that has so many visits is held back from then on. With 32 or 128 in its place a
/// search took as long.
const HOT: u64 = 64 * VISIT;

/// All workers together hold back so much of one word: each its part of it, and at most one visit
/// more. So what a word lacks doesn't grow with their number.
pub(crate) const MOST_HELD: u64 = MOST_OWED_VISITS * VISIT;

/// A law of these limits, with nothing to run: a word is held back from its 64th visit, all workers
/// hold back 64 visits of it, and each has 16,384 slots. The numbers stand bare on purpose: of a
/// name the law would hold whatever its number.
pub fn held_adds_have_limits()
    ensures visits { (HOT ≡ 64 * 2 ^ 32) × (MOST_HELD ≡ 64 * 2 ^ 32) }
    ensures slots { SLOTS ≡ 16384 }
{}

/// What a worker owes: in each slot a seen word, and the sum of the adds to it that are held back.
/// A word has one slot. The words that are held back are those that stand in their slot. A sum of
/// `most` is given before the next add to its word.
#[derive(Drop)]
pub(crate) struct Sums {
    pub(crate) words: [u32; SLOTS],
    pub(crate) sums: [u64; SLOTS],
    pub(crate) most: u64,
}

impl Sums {
    /// Nothing is owed, and no word is held back, by one of so many workers.
    pub(crate) fn none(workers: u32) -> Sums
        requires { (1 ≤ workers) × (workers ≤ MOST_WORKERS) }
        ensures none { (s : Setting) → s.knobs.workers ≡ workers → HoldsDebts s result [] }
        ensures part { workers * result.most ≤ MOST_HELD }
    {
        Sums {
            words: [0; SLOTS],
            sums: [0; SLOTS],
            most: MOST_HELD / u64::from(workers),
        }
    }
}

// The slot of a word.
#[inline(always)]
fn slot(word: u32) -> usize
    ensures is { result ≡ slot_of word }
    ensures inside { result < SLOTS }
{
    word as usize / NODE_WORDS % SLOTS
}

// Gives what is owed to the word of a slot.
#[inline(never)]
fn give_slot(tree: &Tree, seat: &mut TreeSeat, sums: &mut Sums, i: usize)
    requires own { IsOf tree.now seat.old }
    requires inside { i < SLOTS }
    requires debts { HoldsDebts tree.now.shape sums.old seat.old.owed }
    ensures own { IsOf tree.now seat.new }
    ensures view { seat.new.view ≡ seat.old.view }
    ensures debts { HoldsDebts tree.now.shape sums.new seat.new.owed }
    ensures none { slice_index sums.new.sums i ≡ 0 }
    ensures words { sums.new.words ≡ sums.old.words }
    ensures most { sums.new.most ≡ sums.old.most }
    ensures rest { (j : ℕ) → slice_index sums.old.sums j ≡ 0 → slice_index sums.new.sums j ≡ 0 }
{
    let sum = sums.sums[i];
    if sum != 0 {
        seat.give(tree, sums.words[i], sum);
        sums.sums[i] = 0;
    }
}

// Gives what is owed to the word of a slot, if that is much.
#[inline(always)]
fn make_room(tree: &Tree, seat: &mut TreeSeat, sums: &mut Sums, i: usize)
    requires own { IsOf tree.now seat.old }
    requires inside { i < SLOTS }
    requires debts { HoldsDebts tree.now.shape sums.old seat.old.owed }
    ensures own { IsOf tree.now seat.new }
    ensures view { seat.new.view ≡ seat.old.view }
    ensures debts { HoldsDebts tree.now.shape sums.new seat.new.owed }
    ensures words { sums.new.words ≡ sums.old.words }
    ensures low { slice_index sums.new.sums i ≤ sums.new.most }
{
    if sums.sums[i] >= sums.most {
        give_slot(tree, seat, sums, i);
    }
}

// Holds the word back from now on: its slot is its own.
#[inline(never)]
fn take_slot(tree: &Tree, seat: &mut TreeSeat, sums: &mut Sums, word: u32)
    requires own { IsOf tree.now seat.old }
    requires debts { HoldsDebts tree.now.shape sums.old seat.old.owed }
    ensures own { IsOf tree.now seat.new }
    ensures view { seat.new.view ≡ seat.old.view }
    ensures debts { HoldsDebts tree.now.shape sums.new seat.new.owed }
    ensures held { slice_index sums.new.words (slot_of word) ≡ word }
{
    let i = slot(word);
    give_slot(tree, seat, sums, i);
    sums.words[i] = word;
}

// Owes an add to a word that is held back.
#[inline(always)]
fn owe(tree: &Tree, seat: &mut TreeSeat, sums: &mut Sums, word: u32, won: bool)
    requires own { IsOf tree.now seat.old }
    requires debts { HoldsDebts tree.now.shape sums.old seat.old.owed }
    requires lone { seat.old.view.whole ≡ None }
    requires fits { FitsStep seat.old.view (Add word won) }
    requires seen { IsSeenWord seat.old.view word }
    requires has { slice_index sums.old.words (slot_of word) ≡ word }
    ensures own { IsOf tree.now seat.new }
    ensures debts { HoldsDebts tree.now.shape sums.new seat.new.owed }
    ensures answer { MayAnswer seat.old.view (Add word won) 0 }
    ensures view { seat.new.view ≡ after seat.old.view (Add word won) 0 }
    ensures words { sums.new.words ≡ sums.old.words }
{
    let i = slot(word);
    make_room(tree, seat, sums, i);
    seat.owe(tree, word, won);
    sums.sums[i] += VISIT + u64::from(won);
}

/// Makes an add to a seen word, or owes it if the word is held back. It answers what the add found,
/// or 0. A word that had [`HOT`] visits is held back from then on, and no other one.
#[inline(always)]
pub(crate) fn make_or_owe(tree: &Tree, seat: &mut TreeSeat, sums: &mut Sums, op: Op) -> u64
    requires own { IsOf tree.now seat.old }
    requires debts { HoldsDebts tree.now.shape sums.old seat.old.owed }
    requires lone { seat.old.view.whole ≡ None }
    requires fits { FitsStep seat.old.view op }
    requires step { op ≢ Done }
    requires seen { (word : ℕ) (won : Bool) → op ≡ Add word won → IsSeenWord seat.old.view word }
    ensures own { IsOf tree.now seat.new }
    ensures debts { HoldsDebts tree.now.shape sums.new seat.new.owed }
    ensures answer { MayAnswer seat.old.view op result }
    ensures view { seat.new.view ≡ after seat.old.view op result }
    ensures hot { (word : ℕ) (won : Bool) → op ≡ Add word won → HOT ≤ result
        → slice_index sums.new.words (slot_of word) ≡ word }
    ensures cold { result < HOT → sums.new.words ≡ sums.old.words }
{
    let Op::Add(word, won) = op else {
        return seat.act(tree, op);
    };
    if sums.words[slot(word)] == word {
        owe(tree, seat, sums, word, won);
        return 0;
    }
    let answer = seat.act(tree, op);
    if answer >= HOT {
        take_slot(tree, seat, sums, word);
    }
    answer
}

/// Gives all that is owed.
pub(crate) fn give_all(tree: &Tree, seat: &mut TreeSeat, sums: &mut Sums)
    requires own { IsOf tree.now seat.old }
    requires debts { HoldsDebts tree.now.shape sums.old seat.old.owed }
    ensures own { IsOf tree.now seat.new }
    ensures view { seat.new.view ≡ seat.old.view }
    ensures nothing { seat.new.owed ≡ [] }
{
    'slots: for i in 0..SLOTS {
        give_slot(tree, seat, sums, i);
    }
}
