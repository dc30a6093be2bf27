//! The records of a closed tree, counted.

ghost use Rattle.std.specs.Prelude.{◌≡◌, ◌==◌, count_by, not};
ghost use Rattle.turn_modes.specs.Records.{records_in};

use tree_words::Closed;
use tree_words::layout::RECORDS_AT;

// How many of the words are not 0.
fn count_words(words: &[u64]) -> usize
    ensures { result ≡ count_by (λ word. not (word == 0)) words.now }
{
    words.iter().filter(|word| **word != 0).count()
}

/// The number of the record words of a closed tree that are not 0, which is the number of its
/// playouts.
pub fn count_records(closed: &Closed) -> usize
    ensures value { result ≡ records_in closed.now }
    ensures all { result ≡ closed.now.shape.knobs.playouts }
{
    let root = closed.shape().root() as usize;
    count_words(&closed.words()[RECORDS_AT..root])
}
