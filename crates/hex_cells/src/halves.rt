//! The two halves of a set's number, each a word of 64 bits: a processor counts and shifts such a
//! word at once.

ghost use Rattle.std.specs.Prelude.{◌≡◌, ℕ, ◌+◌, ◌<◌, true};
ghost use Rattle.hex_cells.specs.Sets.{has, members};

/// The bit of this half with `k` bits set below it: those that are set in rising order, from 0.
pub(crate) fn place_in(half: u64, k: u32) -> u32
    requires { k < members half u64.BITS }
    ensures inside { has half result ≡ true }
    ensures order { members half result ≡ k }
    ensures range { result < u64.BITS }
{
    let mut at = 0;
    let mut width = u64::BITS;
    // The bit is one of the `width` from `at` on; halving them takes six steps.
    while 1 < width {
        width /= 2;
        if (half & (1 << (at + width)) - 1).count_ones() <= k {
            at += width;
        }
    }
    at
}
