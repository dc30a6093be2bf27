//! The search of a team: one worker alone, or one worker a thread, by halves.

ghost use Rattle.std.specs.Prelude.{◌≡◌, ◌+◌, ◌≤◌, IfOk};
ghost use Rattle.std.specs.Thread.{IsSync};
ghost use Rattle.tree_words.specs.Sequence.{seq_of};
ghost use Rattle.tree_words.specs.Trees.{IsTreeOf};
ghost use Rattle.tree_words.specs.Words.{next_in};
ghost use Rattle.tree_words.specs.declared.settings.TheConstants.{LEAST_WORDS, MOST_WORKERS};
ghost use Rattle.search_team.specs.Works.{IsFresh, IsDone};

use super::working::work;
use seq_search::{Gate, search_alone};
use std::alloc::Global;
use std::thread::{Threads, join};
use tree_rule::{Tree, TreeSeat};
use tree_words::layout::{HEADER_WORDS, NODE_WORDS};
use tree_words::{Closed, LEAST_WORDS, Memory, Shape};

// Lets so many workers work, from the worker `first` on. The seat stands for them, and the one that
// is given back too.
fn team<R: Threads + Sync, G: Gate + Sync>(
    rt: &R,
    tree: &Tree,
    seat: TreeSeat,
    shape: &Shape,
    first: u32,
    workers: u32,
    gate: &G,
) -> TreeSeat
    requires shape { tree.now.shape ≡ shape.now }
    requires fresh { IsFresh tree.now seat workers }
    requires few { first + workers ≤ MOST_WORKERS }
    ensures done { IsDone tree.now result workers }
{
    let mut seat = seat;
    if workers <= 1 {
        work(tree, &mut seat, shape, first, gate);
        return seat;
    }
    let part = workers / 2;
    let rest = workers - part;
    let other = seat.split(tree, part);
    let (mut left, right) = join(
        rt,
        move || -> TreeSeat
            requires { IsSync R.row × (tree.now.shape ≡ shape.now) × IsFresh tree.now seat rest
                × (first + rest ≤ MOST_WORKERS) }
            ensures { IsDone tree.entry.now result rest }
        { team(rt, tree, seat, shape, first, rest, gate) },
        move || -> TreeSeat
            requires { IsSync R.row × (tree.now.shape ≡ shape.now) × IsFresh tree.now other part
                × (first + rest + part ≤ MOST_WORKERS) }
            ensures { IsDone tree.entry.now result part }
        { team(rt, tree, other, shape, first + rest, part, gate) },
    );
    left.join(tree, right);
    left
}

// The closed tree that the workers of the shape make together, over all words of the shape. One
// worker shares them with nobody, and searches a plain vector; of more each has its own thread.
fn search_whole<R: Threads + Sync, G: Gate + Sync>(
    rt: &R,
    alloc: Global,
    shape: &Shape,
    gate: &G,
) -> Result<Closed, Memory>
    ensures shape { IfOk result (λ closed. closed.shape ≡ shape.now) }
    ensures one { shape.now.knobs.workers ≡ 1
        → IfOk result (λ closed. IsTreeOf shape.now closed.words (seq_of shape.now).0) }
    ensures next { shape.now.knobs.workers ≡ 1
        → IfOk result (λ closed. next_in closed.words ≡ (seq_of shape.now).1) }
{
    // Brings the ranges of the knobs into scope, too.
    let workers = shape.knobs().workers;
    if workers == 1 {
        return search_alone(alloc, shape, gate);
    }
    let (tree, seat) = Tree::make(alloc, shape)?;
    let seat = team(rt, &tree, seat, shape, 0, workers, gate);
    Ok(tree.close(seat))
}

/// For lost races a search by several workers is given so many blocks a worker at first.
const RACES: u32 = 64;

// How many words of blocks a search is given at first. A leaf is claimed by a walk after as many
// playouts ended there as the expand number says, and no block has more nodes than the board has
// empty cells. Several workers claim more, since they come to the same leaf together, and all but
// one of them claim in vain. In all searches that were tried, this was enough: one worker claimed
// up to 0.96 of what is counted here. Nothing is proved of this number but its range: if it is too
// small, the search is made again.
fn first_words(shape: &Shape) -> u32
    ensures least { LEAST_WORDS ≤ result }
    ensures most { result ≤ shape.now.knobs.words }
{
    let knobs = shape.knobs();
    let alone = knobs.playouts / (knobs.expand + 1) + 1;
    let lost = if knobs.workers == 1 {
        0
    } else {
        alone / 2 + RACES * knobs.workers
    };
    let nodes = shape.board().empties().count() as usize;
    let block = (HEADER_WORDS + NODE_WORDS * nodes) as u64;
    let wanted = (block * u64::from(alone + lost + 1)).max(u64::from(LEAST_WORDS));
    wanted.min(u64::from(knobs.words)) as u32
}

/// As [`search`], but the first search has a table with so many words of blocks, at least 1,024
/// and at most those of the shape.
pub fn search_within<R: Threads + Sync, G: Gate + Sync>(
    rt: &R,
    alloc: Global,
    shape: &Shape,
    first_words: u32,
    gate: &G,
) -> Result<Closed, Memory>
    requires least { LEAST_WORDS ≤ first_words }
    requires most { first_words ≤ shape.now.knobs.words }
    ensures shape { IfOk result (λ closed. closed.shape ≡ shape.now) }
    ensures one { shape.now.knobs.workers ≡ 1
        → IfOk result (λ closed. IsTreeOf shape.now closed.words (seq_of shape.now).0) }
{
    let narrow = shape.narrowed(first_words);
    let closed = search_whole(rt, alloc, &narrow, gate)?;
    match closed.widened(shape) {
        Some(whole) => Ok(whole),
        None => search_whole(rt, alloc, shape, gate),
    }
}

/// The closed tree that the workers of the shape make together, each in a thread of its own, or one
/// worker alone in this one. One worker makes the tree of the sequential search. The only refusal
/// is out of memory.
///
/// They search in a table whose area is as large as they can use, as far as is known, and all
/// memory is taken before any worker begins. If a claim passed its end all the same, they search
/// once more, in a table of all the shape's words, which is taken then, and pass the gate again.
pub fn search<R: Threads + Sync, G: Gate + Sync>(
    rt: &R,
    alloc: Global,
    shape: &Shape,
    gate: &G,
) -> Result<Closed, Memory>
    ensures shape { IfOk result (λ closed. closed.shape ≡ shape.now) }
    ensures one { shape.now.knobs.workers ≡ 1
        → IfOk result (λ closed. IsTreeOf shape.now closed.words (seq_of shape.now).0) }
{
    search_within(rt, alloc, shape, first_words(shape), gate)
}
