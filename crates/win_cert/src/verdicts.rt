//! The verdict on a certificate, as a checker answers it.

use super::reasons::Reason;
use conn_store::Kind;
use hex_cells::CellSet;

/// The verdict on a certificate.
#[derive(Clone, Copy, Debug, PartialEq, Eq)]
pub enum Verdict {
    /// It is accepted: the claim, and the carrier of the entry that the claim names.
    Yes { claim: Kind, carrier: CellSet },
    /// It is not: the number from 0 of the first line against which there is a reason, the claim
    /// being the last, and the first reason.
    No { line: u32, reason: Reason },
}
