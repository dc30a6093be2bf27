//! The lines of the protocol: raw lines out of a stream, what they ask, and the bytes of answers.
//!
//! **What it is.** A *raw line* is what stands between line feeds. A [`Splitter`] takes a stream in
//! pieces of any length and keeps the raw line in hand. [`read_line`] reads a raw line as a
//! [`Parsed`]: blank, a bare id, or a [`Request`] with an optional id, a name and arguments.
//! [`push_success`] and [`push_failure`] write the bytes of an answer. The rules are those of GTP
//! version 2 (draft), preprocessing and command structure, with a limit of [`LINE_LIMIT`] bytes a
//! line.
//!
//! **A caller** feeds each piece that it read until all of it is used, and then the end:
//!
//! ```text
//! let fed = splitter.push(piece);           // used: up to and with the first line feed
//! if fed.ended && let Some(raw) = splitter.line() {
//!     let parsed = read_line(alloc, raw)?;
//! }
//! ```
//!
//! **What is proved.** However a stream is cut into pieces, the raw lines are those of the whole
//! stream (`stream` of `push` and `finish`, over `specs/Lines.antt`), and a line is long exactly if
//! it has more than [`LINE_LIMIT`] bytes. A raw line is read exactly as the filters of
//! `specs/Reading.antt` say, and an answer has exactly the bytes of `specs/Answering.antt`.
//!
//! **What is only tested, or not said.** That memory suffices: `make`, `read_line`, `id_text` and,
//! if no room is left, the two writers may answer [`Memory`], which no clause ties to anything.
//!
//! **Limits.** A line that is too long is not kept; [`limits_are_those_of_the_manual`] has the
//! limit as a number. `push`, `finish` and `line` take no memory.
//!
//! **Why so.**
//!
//! - The number of an argument and the id of a request have the same form, so one reader,
//!   [`read_number`], serves both.
//! - [`HtpText`], hex_io's `Bytes`, and `SgfText` and `CertText` of sgf_tree and win_cert have one
//!   contract: none stands on another, and one type for all would need a crate below all four.
//! - The protocol's white space, once control bytes are dropped, is the byte 32 alone; SGF's is
//!   that of `sgf_tree::is_white_space`. Each standard's crate says its own.
#![tactic(auto)]

mod answer;
mod bytes;
mod limits;
mod request;
mod splitter;
mod want;

pub use answer::{FRAME, ID_LIMIT, id_text, push_failure, push_success};
pub use bytes::{Args, HtpText};
pub use limits::limits_are_those_of_the_manual;
pub use request::{Parsed, Request, read_line, read_number};
pub use splitter::{Fed, LINE_LIMIT, Splitter};
pub use want::Memory;
