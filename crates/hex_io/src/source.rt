//! Bytes that are read from the first one on.

ghost use Rattle.std.specs.Prelude.{◌≡◌, ◌+◌, ◌-◌, ◌≤◌, ◌++◌, take, drop, length, vec_len};

/// Bytes with a place: those before it were taken, the others are to come.
#[derive(Drop)]
pub struct Source {
    pub bytes: Vec<u8>,
    pub at: usize,
    ghost in_bytes: { at ≤ vec_len bytes },
}

impl Source {
    pub fn of(bytes: Vec<u8>) -> Source
        ensures bytes { result.bytes ≡ bytes }
        ensures place { result.at ≡ 0 }
    {
        Source { bytes, at: 0 }
    }

    /// How many bytes are to come.
    pub fn left(&self) -> usize
        ensures { result ≡ length (drop self.now.at self.now.bytes.items) }
    {
        self.bytes.len() - self.at
    }

    /// Moves the first `count` bytes to the start of `buf`.
    pub fn take(&mut self, count: usize, buf: &mut [u8])
        requires left { count ≤ length (drop self.old.at self.old.bytes.items) }
        requires room { count ≤ length buf.old }
        ensures ahead { drop self.old.at self.old.bytes.items ≡ take count buf.new
            ++ drop self.new.at self.new.bytes.items }
        ensures behind { take self.new.at self.new.bytes.items
            ≡ take self.old.at self.old.bytes.items ++ take count buf.new }
        ensures bytes { self.new.bytes ≡ self.old.bytes }
        ensures place { self.new.at ≡ self.old.at + count }
    {
        let next = self.at + count;
        buf[..count].copy_from_slice(&self.bytes[self.at..next]);
        self.at = next;
    }
}
