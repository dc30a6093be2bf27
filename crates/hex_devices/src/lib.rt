//! What a run has to do with: its devices, why it stops, and how it ends.
//!
//! **What it is.** The [`Devices`] of a run are a link, a shelf and an archive, with the runtime
//! and the gate of its searches. A *stop* is why it comes to no end of its own ([`Stop`]), and its
//! [`End`] is what a status and the line for the errors tell. What is done with the devices without
//! a session stands here too: the whole input of a link is taken and answered by one text, and a
//! turn is handed to an archive and its text given.
//!
//! **A caller** makes the devices, hands them on, and tells how it ended:
//!
//! ```text
//! let input = take_all(alloc, &mut link, limit)?;
//! let answer = answer_input(alloc, &mut link, &reader, limit);
//! hand_over(&mut link, &mut archive, turn, &text)?;
//! let status = End::of_answer(answer).status();
//! ```
//!
//! **What is proved.** [`take_all`] takes all that is to come, up to a limit, in the words of
//! specs/Inputs.antt. [`answer_input`] gives the text by which an [`InputReader`] answers it. A
//! turn that is handed over was taken before the first byte of its text was given ([`hand_over`],
//! specs/Handing.antt). At a write fault a prefix of its text was given that is not all of it, and
//! at an archive fault nothing. A count of faults rose with its own fault and is as before with
//! every other outcome (specs/Devices.antt). Each error is told as one stop (specs/Errors.antt).
//! No two ends have one status (specs/Statuses.antt).
//!
//! **What is only tested, or not said.** That memory suffices. That after a fault nothing is read
//! or written. That [`hold_streams`] holds the standard streams that are closed, and that
//! [`grow_stack`] leaves no signal to a search whose memory is limited.
//!
//! **Limits.** None of its own: each caller says the most bytes of an input.
//!
//! **Why so.**
//!
//! - What a run is made over is one value, [`Devices`], and contracts see one record of it: what
//!   link, shelf and archive hold and their counts of faults. Its `names` are the three references:
//!   whoever takes the devices apart again has to know that they are the same, and `run` says so.
//! - It is a crate below the session: what takes a whole input or hands in one turn needs no
//!   engine.
//! - Both programs end by [`End`], so one place names each fault, status and line. A run of
//!   hexmatch has four of these ends, and says so (`IsMatchStatus`).
//! - How a text was given is told by the relations of hex_io: all of it (`Gave`), or at a write
//!   fault a prefix that is not all of it (`GaveProperPart`). A whole input's answer has its own,
//!   `AnswersInput`, since the same link first gave the input.
//! - Each call fails only by what can come in it, so no definition has a case that can't: a read by
//!   [`ReadFault`], a write by [`WriteFault`], a turn that is handed over by [`HandingFault`], a
//!   whole input by [`InputError`], its answer by [`AnswerError`]. [`OutputError`] is that of the
//!   calls of a session, and of a mode that hands in a turn. Only where a run or a session ends
//!   does an error become a [`Stop`], by one `From` that says which.
//! - A mode that takes a whole input is a reader with a ghost relation between the bytes, the text
//!   and whether they are accepted; so how input is taken, the limit, the faults and the status are
//!   proved once. The reader says how many bytes it answers, since an audit counts trees in 32
//!   bits.
#![tactic(auto)]

mod answers;
mod arguments;
mod devices;
mod ends;
mod errors;
mod faults;
mod giving;
mod handing;
mod inputs;
mod stacks;
mod stops;
mod streams;

pub use answers::{InputAnswer, InputReader, answer_input};
pub use arguments::arguments_of;
pub use devices::{DeviceTypes, Devices};
pub use ends::End;
pub use errors::{AnswerError, InputError, OutputError};
pub use faults::{HandingFault, ReadFault, WriteFault};
pub use handing::hand_over;
pub use inputs::{PIECE, take_all};
pub use stacks::grow_stack;
pub use stops::Stop;
pub use streams::{HeldStreams, hold_streams};
