//! The scan of a block's children.

ghost use Rattle.std.specs.Prelude.{◌≡◌, ℕ, ◌+◌, ◌<◌, ◌≤◌, IsTrue, ◌↔◌};
ghost use Rattle.tree_words.specs.Words.{count_in};
ghost use Rattle.tree_words.specs.Walks.{AtMost};
ghost use Rattle.walker.specs.Scans.{ScanData, CanScan, CanScanChild, child_in, kept, scan_next};
ghost use Rattle.walker.specs.Scans.{scan_of};

use super::PAST_WORDS;
use std::marker::Model;
use tree_words::layout::{HEADER_WORDS, MOST_NODES, NODE_WORDS, SEEN_WORD, TALLY_WORD};
use tree_words::{Op, visits_of, wins_of};
use uct_table::{MOST_BAR, MOST_COUNT, MOST_WEIGHT, Parent};

/// Which word of a child is looked at next.
#[derive(Clone, Copy, Debug, PartialEq, Eq)]
pub enum Phase {
    /// Its move.
    Move,
    /// Its tally.
    Tally,
    /// Its seen word.
    Seen,
}

/// The looks at a block's children, three for each: the move, the tally and the seen word. The
/// child that Choice takes of those that were looked at is kept as they come.
///
/// It is small and stands alone, so that a loop over it can keep it in a local.
#[derive(Drop)]
pub struct Scan {
    parent: Parent,
    count: u32,
    at: u32,
    phase: Phase,
    place: u32,
    tally: u64,
    best: u32,
    visits: u32,
    most: u64,
    // No higher than `most`, and 0 at the first child.
    bar: u64,
    fresh: bool,
}

impl Model for Scan {
    ghost use Rattle.std.specs.Prelude.{◌≡◌, ◌≤◌};
    ghost use Rattle.uct_table.specs.declared.scoring.TheConstants.{MOST_BAR};
    ghost use Rattle.walker.specs.Scans.{ScanData};

    ghost Value = { ScanData };

    ghost view = { λ s. record {
      parent = s.parent.visits;
      weight = s.parent.weight;
      count = s.count;
      at = s.at;
      phase = s.phase;
      place = s.place;
      tally = s.tally;
      best = s.best;
      visits = s.visits;
      most = s.most;
      fresh = s.fresh;
    } };

    ghost invariant = { λ s. (s.bar ≤ s.most) × (s.bar ≤ MOST_BAR) × (s.place ≡ 0 → s.bar ≡ 0) };
}

impl Scan {
    /// The scan of the block that begins at `block` and has `count` nodes, below a node with these
    /// visits, for this weight.
    pub(crate) fn of(block: u32, count: u32, visits: u32, weight: u32) -> Scan
        requires block { block < PAST_WORDS }
        requires visits { visits ≤ MOST_COUNT }
        requires weight { weight ≤ MOST_WEIGHT }
        ensures { result ≡ scan_of block count visits weight }
    {
        Scan {
            parent: Parent::of(visits, weight),
            count,
            at: block + HEADER_WORDS as u32,
            phase: Phase::Move,
            place: 0,
            tally: 0,
            best: 0,
            visits: 0,
            most: 0,
            bar: 0,
            fresh: false,
        }
    }

    /// A scan at the same point.
    pub fn again(&self) -> Scan
        ensures { result ≡ self.now }
    {
        Scan { ..*self }
    }

    /// The next look.
    #[inline(always)]
    pub fn op(&self) -> Op
        ensures { result ≡ Op.Look self.now.at }
    {
        Op::Look(self.at)
    }

    /// Takes the answer of the look.
    #[inline(always)]
    pub fn got(&mut self, answer: u64)
        requires { CanScan self.old answer }
        ensures { self.new ≡ scan_next self.old answer }
    {
        match self.phase {
            Phase::Move => {
                self.at += TALLY_WORD as u32;
                self.phase = Phase::Tally;
            }
            Phase::Tally => {
                self.at += (SEEN_WORD - TALLY_WORD) as u32;
                self.phase = Phase::Seen;
                self.tally = answer;
            }
            Phase::Seen => {
                self.keep(answer);
                self.at += (NODE_WORDS - SEEN_WORD) as u32;
                self.phase = Phase::Move;
            }
        }
    }

    /// The three looks at the child in hand, if its move is next: those that three calls of
    /// `op` give, whatever is answered in between.
    #[inline(always)]
    pub fn child_ops(&self) -> (Op, Op, Op)
        requires phase { self.now.phase ≡ Phase.Move }
        requires at { self.now.at < PAST_WORDS }
        ensures first { result.0 ≡ Op.Look self.now.at }
        ensures second { (a : ℕ) → result.1 ≡ Op.Look (scan_next self.now a).at }
        ensures third { (a b : ℕ) → result.2 ≡ Op.Look (scan_next (scan_next self.now a) b).at }
    {
        (
            Op::Look(self.at),
            Op::Look(self.at + TALLY_WORD as u32),
            Op::Look(self.at + SEEN_WORD as u32),
        )
    }

    /// Takes the answers of the three looks at the child in hand, if its move is next: what
    /// three calls of `got` make of it. Of the move's word nothing is kept.
    #[inline(always)]
    pub fn got_child(&mut self, moved: u64, tally: u64, seen: u64)
        requires phase { self.old.phase ≡ Phase.Move }
        requires can { CanScanChild self.old tally seen }
        ensures { self.new ≡ scan_next (scan_next (scan_next self.old moved) tally) seen }
    {
        let _ = moved;
        self.tally = tally;
        self.keep(seen);
        self.at += NODE_WORDS as u32;
    }

    // Keeps the child in hand, whose seen word this is, if Choice prefers it, and goes on to the
    // next place. Nearly every child is settled by the bar; the first one never is.
    #[tactic(auto, unfolding(crate::specs::Scans::kept))]
    #[inline(always)]
    fn keep(&mut self, seen: u64)
        requires tally { AtMost MOST_COUNT (count_in self.old.tally) }
        requires seen { AtMost MOST_COUNT (count_in seen) }
        requires place { self.old.place < MOST_NODES }
        ensures { self.new ≡ record (kept self.old (child_in self.old seen)) {
          place = self.old.place + 1;
        } }
    {
        let place = self.place;
        self.place += 1;
        if self.fresh {
            return;
        }
        let visits = visits_of(self.tally);
        if visits == 0 {
            self.best = place;
            self.visits = 0;
            self.fresh = true;
            return;
        }
        let (wins, seen, seen_wins) = (wins_of(self.tally), visits_of(seen), wins_of(seen));
        if self.parent.is_low(self.bar, visits, wins, seen, seen_wins) {
            return;
        }
        let score = self.parent.score(visits, wins, seen, seen_wins);
        if self.most < score {
            self.most = score;
            self.bar = score.min(MOST_BAR);
            self.best = place;
            self.visits = visits;
        } else if place == 0 {
            self.visits = visits;
        }
    }

    /// Whether a child's move is looked at next.
    #[inline(always)]
    pub fn is_at_move(&self) -> bool
        ensures { IsTrue result → self.now.phase ≡ Phase.Move }
    {
        matches!(self.phase, Phase::Move)
    }

    /// Whether a child without visits is kept: none that comes after it is chosen.
    #[inline(always)]
    pub fn is_fresh(&self) -> bool
        ensures { result ≡ self.now.fresh }
    {
        self.fresh
    }

    /// Whether all children were looked at.
    #[inline(always)]
    pub fn is_done(&self) -> bool
        ensures { IsTrue result ↔ (self.now.count ≤ self.now.place) }
    {
        self.count <= self.place
    }

    /// The place of the child that is kept.
    pub(crate) fn best(&self) -> u32
        ensures { result ≡ self.now.best }
    {
        self.best
    }

    /// The visits of the child that is kept.
    pub(crate) fn visits(&self) -> u32
        ensures { result ≡ self.now.visits }
    {
        self.visits
    }
}
