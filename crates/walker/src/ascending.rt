//! The way up: the adds of a walk, from its leaf to the root.

ghost use Rattle.std.specs.Prelude.{◌≡◌, ◌≢◌, ◌<◌, MatchOption};
ghost use Rattle.walker.specs.Machine.{on_way_up, risen, seen_on, with_climb};
ghost use Rattle.walker.specs.Ways.{HasWords};

use super::PAST_WORDS;
use super::climbs::Climb;
use super::machine::Walker;
use super::stages::Stage;
use tree_words::layout::TALLY_WORD;

impl Walker {
    /// After the add to the node's tally: the seen words of its block are next, and after those of
    /// the root the record.
    pub(crate) fn tally(&mut self)
        requires { HasWords self.old.way }
        ensures { self.new ≡ risen self.old.way self.old }
    {
        let Some(level) = self.way.pop() else {
            self.stage = Stage::Noting;
            return;
        };
        self.node = level.parent;
        self.player = self.player.other();
        self.climb = Climb::of(
            level.block,
            level.cells,
            self.ending.full.stones(self.player),
            self.ending.winner == self.player,
            self.shape.board().size(),
        );
        self.go_up();
    }

    /// After the add to a seen word.
    #[inline(always)]
    pub(crate) fn see(&mut self)
        requires { self.old.node < PAST_WORDS }
        ensures { self.new ≡ seen_on self.old }
    {
        self.climb.got();
        self.go_up();
    }

    /// The adds to the seen words of a block that are still to be made, if the walker is at
    /// them; `None` exactly elsewhere.
    pub fn climb(&self) -> Option<Climb>
        ensures { MatchOption result (self.now.stage ≢ Stage.Seeing)
            (λ climb. (self.now.stage ≡ Stage.Seeing) × (climb ≡ self.now.climb)) }
    {
        match self.stage {
            Stage::Seeing => Some(self.climb.again()),
            _ => None,
        }
    }

    /// Goes on with the adds that are left now, after some that were made by themselves. After the
    /// last the tally of the level above is next.
    pub fn put_climb(&mut self, climb: Climb)
        requires { self.old.node < PAST_WORDS }
        ensures { self.new ≡ with_climb self.old climb }
    {
        self.climb = climb;
        self.go_up();
    }

    // The next seen word, or the tally of the level above.
    fn go_up(&mut self)
        requires { self.old.node < PAST_WORDS }
        ensures { self.new ≡ on_way_up self.old.climb self.old }
    {
        if self.climb.is_done() {
            self.stage = Stage::Tallying;
            self.at = self.node + TALLY_WORD as u32;
        } else {
            self.stage = Stage::Seeing;
        }
    }
}
