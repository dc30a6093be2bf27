//! The search of one worker.

ghost use Rattle.std.specs.Prelude.{◌≡◌, ◌+◌, ◌<◌, IfOk};
ghost use Rattle.tree_words.specs.Opening.{AreOpening};
ghost use Rattle.tree_words.specs.Sequence.{seq_of};
ghost use Rattle.tree_words.specs.Trees.{IsTreeOf};
ghost use Rattle.tree_words.specs.Words.{next_in};
ghost use Rattle.seq_search.specs.Searching.{Searched};

use super::adding::add;
use super::descending::Descent;
use super::gates::{Gate, OpenGate};
use super::reaching::reach;
use play_out::play;
use std::alloc::Global;
use tree_words::layout::TICKET_AT;
use tree_words::{Closed, Memory, Shape, make_opening};

// The worker, whose number is 0, passes the gate in his first walk alone.
fn pass_first<G: Gate>(gate: &G, k: u32) {
    if k == 0 {
        gate.pass(0);
    }
}

// One walk, for playout `k`: down to a leaf, the playout from there, and its adds on the way.
fn walk<G: Gate>(words: &mut [u64], shape: &Shape, k: u32, descent: &mut Descent, gate: &G)
    requires number { k < shape.now.knobs.playouts }
    requires searched { Searched shape.now words.old k }
    ensures { Searched shape.now words.new (k + 1) }
{
    shape.keeps();
    reach(words, shape, descent);
    pass_first(gate, k);
    let seed = shape.knobs().seed;
    let ending = play(&descent.board, descent.player, seed, u64::from(k));
    add(words, shape, descent, k, &ending);
}

// All walks, from the opening words on.
fn make_walks<G: Gate>(words: &mut [u64], shape: &Shape, gate: &G)
    requires { AreOpening shape.now words.old }
    ensures { Searched shape.now words.new shape.now.knobs.playouts }
{
    shape.keeps();
    let playouts = shape.knobs().playouts;
    // One worker draws all playout numbers.
    words[TICKET_AT] = u64::from(playouts);
    let mut descent = Descent::new(shape);
    for k in 0..playouts {
        walk(words, shape, k, &mut descent, gate);
    }
}

/// The closed tree that one worker makes: that of the sequential search of the shape. The number of
/// workers among the knobs changes nothing. The gate is passed as its trait says, by worker 0.
pub fn search_alone<G: Gate>(alloc: Global, shape: &Shape, gate: &G) -> Result<Closed, Memory>
    ensures shape { IfOk result (λ closed. closed.shape ≡ shape.now) }
    ensures tree { IfOk result (λ closed. IsTreeOf shape.now closed.words (seq_of shape.now).0) }
    ensures next { IfOk result (λ closed. next_in closed.words ≡ (seq_of shape.now).1) }
{
    shape.keeps();
    let mut words = make_opening(alloc, shape)?;
    make_walks(&mut words, shape, gate);
    Ok(Closed::of(*shape, words))
}

/// The same tree, with no gate.
pub fn plain_search(alloc: Global, shape: &Shape) -> Result<Closed, Memory>
    ensures shape { IfOk result (λ closed. closed.shape ≡ shape.now) }
    ensures tree { IfOk result (λ closed. IsTreeOf shape.now closed.words (seq_of shape.now).0) }
{
    search_alone(alloc, shape, &OpenGate)
}
