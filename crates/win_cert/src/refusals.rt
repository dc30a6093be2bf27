//! What the calls of this crate answer in place of a value.

use std::alloc::AllocError;
use thiserror::Error;

/// Memory ran out.
#[derive(Debug, Clone, Copy, PartialEq, Eq, Drop)]
pub struct Memory;

impl From<AllocError> for Memory {
    fn from(_refused: AllocError) -> Memory {
        Memory
    }
}

/// Why bytes are not read as a certificate.
#[derive(Clone, Copy, Debug, PartialEq, Eq, Drop, Error)]
pub enum CertError {
    /// The bytes are no certificate: `line` is the number, from 1, of the first line of the text
    /// that is not as it should be. A line that is missing counts, and so does a line without its
    /// line feed and a line after the claim.
    #[error("not a certificate at line {line}")]
    NotCert { line: u32 },
    /// One line more than [`most_lines`](crate::most_lines) stands before the claim, and all are
    /// good up to it. No line after it was looked at.
    #[error("too many lines")]
    TooManyLines,
    /// Memory ran out.
    #[error("out of memory")]
    Memory,
}

impl From<AllocError> for CertError {
    fn from(_refused: AllocError) -> CertError {
        CertError::Memory
    }
}
