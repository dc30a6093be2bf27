//! Why a run stops before its end.

/// Why a run stops before its end.
#[derive(Clone, Copy, Debug, PartialEq, Eq)]
pub enum Stop {
    /// A read failed.
    ReadFault,
    /// A write failed.
    WriteFault,
    /// Memory ran out.
    Memory,
    /// The input is longer than the limit.
    TooLong,
    /// The archive failed.
    ArchiveFault,
}
