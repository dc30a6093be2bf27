//! Closed trees.

ghost use Rattle.std.specs.Prelude.{◌≡◌, ◌≤◌, IfSome, min, slice_index};
ghost use Rattle.tree_words.specs.Areas.{AreFirst, IsNarrower, all_words};
ghost use Rattle.tree_words.specs.Closing.{IsClosed};
ghost use Rattle.tree_words.specs.Settings.{IsSetting};
ghost use Rattle.tree_words.specs.Words.{end_of, next_in};

use super::layout::NEXT_AT;
use super::shapes::Shape;
use std::marker::Model;

/// A closed tree: a shape and its words, of which the type keeps that each playout has its record,
/// that the blocks are complete and share no word, that all counts are exact, and that the tree is
/// grown. It holds the first words, with all that were written; those behind them are 0.
#[derive(Debug, Drop)]
pub struct Closed {
    shape: Shape,
    words: Vec<u64>,
}

impl Model for Closed {
    ghost use Rattle.tree_words.specs.Areas.{AreFirst, all_words};
    ghost use Rattle.tree_words.specs.Closing.{ClosedTree, IsClosed};

    ghost Value = { ClosedTree };

    ghost view = { λ c. record { shape = c.shape; words = all_words c.shape c.words.items } };

    ghost invariant = { λ c. AreFirst c.shape c.words.items
        × IsClosed c.shape (all_words c.shape c.words.items) };
}

impl Closed {
    /// The closed tree of a shape and its words, which are a closed tree.
    pub fn of(shape: Shape, words: Vec<u64>) -> Closed
        requires { IsClosed shape words.items }
        ensures { result ≡ record { shape = shape; words = words.items } }
    {
        Closed { shape, words }
    }

    /// Does nothing: that the tree is closed, and its shape a setting, is known after the call.
    #[inline]
    pub fn keeps(&self)
        ensures setting { IsSetting self.now.shape }
        ensures closed { IsClosed self.now.shape self.now.words }
    {
        self.shape.keeps();
    }

    /// The shape.
    pub fn shape(&self) -> &Shape
        ensures value { result.now ≡ self.now.shape }
        ensures setting { IsSetting result.now }
    {
        self.shape.keeps();
        &self.shape
    }

    /// The first words, with all that were written: the tree's words are these and then zeros.
    pub fn words(&self) -> &[u64]
        ensures value { self.now.words ≡ all_words self.now.shape result.now }
        ensures first { AreFirst self.now.shape result.now }
        ensures closed { IsClosed self.now.shape self.now.words }
    {
        self.words.as_slice()
    }

    /// The word at a place, which is 0 behind the last one.
    pub fn word(&self, at: usize) -> u64
        ensures { result ≡ slice_index self.now.words at }
    {
        let words = self.words();
        if at < words.len() { words[at] } else { 0 }
    }

    /// The same tree as one of a shape whose area goes on behind this one's. `None` if a claim
    /// passed the end of the words that are held, and the area goes on there.
    pub fn widened(self, shape: &Shape) -> Option<Closed>
        requires { IsNarrower self.shape shape.now }
        ensures shape { IfSome result (λ whole. whole.shape ≡ shape.now) }
        ensures words { IfSome result (λ whole. whole.words ≡ all_words shape.now self.words) }
        ensures inside { IfSome result (λ _.
            min (next_in self.words) (end_of shape.now) ≤ end_of self.shape) }
    {
        shape.keeps();
        let next = self.word(NEXT_AT);
        let Closed { shape: _, words } = self;
        if next.min(u64::from(shape.total())) > words.len() as u64 {
            return None;
        }
        Some(Closed {
            shape: *shape,
            words,
        })
    }
}
