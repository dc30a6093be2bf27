//! The limits of what is taken and of what is held, and a law that has their numbers.
//!
//! Definitions name these constants, so a wrong number would make a wrong definition. So in the law
//! the numbers stand bare on purpose: of a name it would hold whatever its number.

ghost use Rattle.std.specs.Prelude.{◌≡◌};

/// The most bytes of input that a run answers: 64 MiB, so that a stream without end is not read for
/// good. One byte more ends the run.
pub const INPUT_LIMIT: usize = 67_108_864;

/// The most bytes of a file that is fetched: 1 MiB, far more than any record of a game.
pub const FILE_LIMIT: usize = 1_048_576;

/// So many bytes of answers a session holds at most before it looks at the next line: as many as a
/// pipe takes, so that one who reads along needn't wait for more.
pub const MOST_HELD: usize = 65_536;

/// A law, with nothing to run: each limit has this number.
pub fn limits_are_those_of_the_manual()
    ensures input { INPUT_LIMIT ≡ 67108864 }
    ensures file { FILE_LIMIT ≡ 1048576 }
    ensures held { MOST_HELD ≡ 65536 }
{}
