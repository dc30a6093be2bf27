//! Gates: what a worker of a search passes before its first add, or a game of a match before its
//! first move.

/// A gate, which workers or games share. Each worker that makes a walk passes it once, in its first
/// walk, after its last look and before its first add to a count; each game of a match passes it
/// once, before its first move. It promises nothing but to return.
pub trait Gate {
    /// The worker or the game with this number passes; both are numbered from 0.
    fn pass(&self, worker: u32);
}

/// A gate that is open: to pass it does nothing.
#[derive(Clone, Copy, Debug, PartialEq, Eq)]
pub struct OpenGate;

impl Gate for OpenGate {
    fn pass(&self, _worker: u32) {}
}
