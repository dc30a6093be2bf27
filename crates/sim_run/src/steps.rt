//! The steps of a worker on the words of a plain vector, by their kinds.

ghost use Rattle.std.specs.Prelude.{◌≡◌, ◌≢◌, ◌<◌, ◌+◌, ◌^◌, length, slice_index, slice_set};
ghost use Rattle.tree_words.specs.declared.steps.Op.TheVariants.{Done, Publish};
ghost use Rattle.arena_rule.specs.Afters.{answer_of, put, word_of};
ghost use Rattle.arena_rule.specs.Rule.{words_after};
ghost use Rattle.sim_run.specs.Plain.{FitsWord};

use tree_words::Op;
use tree_words::layout::{NEXT_AT, RECORDS_AT, TICKET_AT, VISIT};

// Adds to a word, and answers what it was.
fn raise(words: &mut [u64], at: usize, by: u64) -> u64
    requires within { at < length words.old }
    requires room { slice_index words.old at + by < 2 ^ 64 }
    ensures words { words.new ≡ slice_set words.old at (slice_index words.old at + by) }
    ensures answer { result ≡ slice_index words.old at }
{
    let found = words[at];
    words[at] = found + by;
    found
}

// Puts a block into a link that is 0, and answers what the link was.
fn link(words: &mut [u64], at: usize, block: u64) -> u64
    requires { at < length words.old }
    ensures words { words.new
        ≡ slice_set words.old at (put (Publish at block) (slice_index words.old at)) }
    ensures answer { result ≡ slice_index words.old at }
{
    let found = words[at];
    if found == 0 {
        words[at] = block;
    }
    found
}

/// One step on the words, by its kind. It answers the old value of the word, and 0 to a write and
/// a note.
pub(crate) fn apply(words: &mut [u64], op: Op) -> u64
    requires step { op ≢ Done }
    requires within { word_of op < length words.old }
    requires room { FitsWord op (slice_index words.old (word_of op)) }
    ensures words { words.new ≡ words_after words.old op }
    ensures answer { result ≡ answer_of op (slice_index words.old (word_of op)) }
{
    match op {
        Op::Draw => raise(words, TICKET_AT, 1),
        Op::Look(i) => words[i as usize],
        Op::Claim(size) => raise(words, NEXT_AT, u64::from(size)),
        Op::Write(i, value) => {
            words[i as usize] = value;
            0
        }
        Op::Publish(at, block) => link(words, at as usize, u64::from(block)),
        Op::Add(i, won) => raise(words, i as usize, VISIT + u64::from(won)),
        Op::Note(k, value) => {
            words[RECORDS_AT + k as usize] = value;
            0
        }
        Op::Done => unreachable!(),
    }
}
