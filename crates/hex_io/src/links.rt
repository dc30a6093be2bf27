//! The byte link: what a session reads from and writes to.

ghost use Rattle.std.specs.Prelude.{◌≡◌, ℕ, ◌<◌, ◌≤◌, length, IfOk};
ghost use Rattle.std.specs.declared.option.Option.{Option};
ghost use Rattle.hex_io.specs.Told.{Told, ReadsBytes, WritesBytes};
ghost use Rattle.hex_io.specs.Causes.{HasCause};

use super::refusals::LinkFault;

/// What is read from and written to, with a count of its own faults.
///
/// A link may tell what it holds (`told`): the bytes still to come, those taken and those given,
/// and the lengths of the last two at each read that was answered. Its counts of faults are known
/// of every link. A count stands still at the greatest value of a `u64`.
pub trait Link {
    ghost told: { Self → Option Told };

    ghost read_faults: { Self → ℕ };

    ghost write_faults: { Self → ℕ };

    /// Moves bytes to the start of `buf`, which is not empty, and answers how many.
    ///
    /// 0 comes only at the end of what is to come. At a fault no byte was moved.
    fn read(&mut self, buf: &mut [u8]) -> Result<usize, LinkFault>
        requires { 0 < length buf.old }
        ensures bound { IfOk result (λ n. n ≤ length buf.new) }
        ensures told { ReadsBytes (told self.old) (told self.new) result buf.new }
        ensures cause { HasCause (read_faults self.old) (read_faults self.new) result }
        ensures writes { write_faults self.new ≡ write_faults self.old };

    /// Gives a prefix of `bytes`, which is not empty, and answers how long it is: at least 1.
    ///
    /// A device that takes none of them is at fault. At a fault no byte was given.
    fn write(&mut self, bytes: &[u8]) -> Result<usize, LinkFault>
        requires { 0 < length bytes.now }
        ensures bound { IfOk result (λ n. (0 < n) × (n ≤ length bytes.now)) }
        ensures told { WritesBytes (told self.old) (told self.new) result bytes.now }
        ensures cause { HasCause (write_faults self.old) (write_faults self.new) result }
        ensures reads { read_faults self.new ≡ read_faults self.old };
}
