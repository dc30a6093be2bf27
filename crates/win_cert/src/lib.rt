//! Certificates: texts that show that a player wins.
//!
//! **Nouns.** A certificate ([`Cert`]) is a board, a player, *derivation lines* ([`Line`]) and a
//! claim; each of these lines, and the claim, is a *statement* ([`Statement`]). Each line gives an
//! *entry* in its *scope*, a set of cells on which the player is taken to have stones too, or sets
//! the scope of the lines after it. A certificate is *accepted* if none of thirteen reasons against
//! a line or the claim applies ([`Reason`]). The *verdict* on it ([`Verdict`]) is yes, with the
//! claim and the carrier of its entry, or the first line with a reason against it and that reason.
//!
//! **A caller** reads a text ([`read`]), writes one ([`write`], if [`is_writable`]), raises a
//! certificate to version 2 ([`raise`]), copies one ([`copy`]) and cuts one from a report ([`cut`],
//! of an entry that [`edge_numbers`] names). Of more than three semi entries that have no cell in
//! common a report makes no full one; [`draft_or`] makes a certificate of them, which a caller has
//! to check. [`version_for`] is the version that lines need.
//!
//! **What is proved.** The text is a whole list of lines of words (specs/Texts.antt). `write` gives
//! it. `read` answers the certificate whose text the bytes are, or exactly the first line that is
//! not as it should be, or that there is a line too many: specs/Readings.antt tells these from the
//! texts of certificates alone. What is written is read back ([`written_text_is_read_back`]), so a
//! certificate has one text. What is cut is accepted, and has a line for each entry on which its
//! entry rests, and no other (specs/Cuts.antt). `raise` changes the version alone
//! and keeps the verdict. What each line gives, the reasons in their order, accepted and the
//! verdict are in specs/Entries.antt, Reasons.antt and Verdicts.antt; proofs/Vectors.antt computes
//! them on certificates. A line has no reason against it exactly if its rule of connection applies
//! ([`lines_are_rules`]).
//!
//! **What is only tested, or not said.** That calls get their memory; the time, which is linear in
//! the text's length. What the derived texts of [`CertError`] are. That what [`draft_or`] makes is
//! accepted.
//!
//! **Limits.** [`MOST_LINES`] lines before the claim, in version 4 [`MOST_LATEST_LINES`], numbers
//! up to [`MOST_NUMBER`], and [`MOST_CASES`] entries in an `or` or a `cases`;
//! [`limits_are_those_of_the_manual`] has them as numbers.
//!
//! Source: the rules are those of `conn_store`; scopes and cases are this project's own.
//!
//! **Why so.**
//!
//! - The rules stand here as tests of a line, since a checker names the first reason against one,
//!   and in conn_store as relations, since a report is closed under them. That both are the same is
//!   the law [`lines_are_rules`]. The relation can't go: a report comes before certificates, and a
//!   carrier that a rule gives need not be one that a line names.
//! - The law that accepted certificates win needs no condition on scopes. BadStone against a `put`,
//!   NoCommonMiddle, WrongColour, and MiddleKind against a `key` stand among the reasons because a
//!   certificate is to say what it means.
//! - Which line is no certificate's is said from prefixes of certificates' texts, and by no reader:
//!   the lines before it begin the text of some certificate, and with it they don't.
//! - A cut keeps the report's order, so each line names earlier ones. What an entry rests on is the
//!   least set that has it and with each entry its premises; a body that keeps an entry too many is
//!   refused. Which rule a line takes is in no clause.
#![tactic(auto)]

mod certs;
mod claims;
mod cutting;
mod drafts;
mod edges;
mod heads;
mod keywords;
mod laws;
mod limits;
mod lines;
mod lists;
mod marking;
mod pushing;
mod raising;
mod reader;
mod reading;
mod reasons;
mod refusals;
mod rule_lines;
mod spellable;
mod spelling;
mod statements;
mod values;
mod verdicts;
mod versions;
mod words;
mod writing;

pub use certs::{
    Cert, FIRST_VERSION, LATEST_VERSION, MOST_LATEST_LINES, MOST_LINES, SECOND_VERSION,
    THIRD_VERSION,
};
pub use claims::claimed_move;
pub use cutting::cut;
pub use drafts::draft_or;
pub use edges::edge_numbers;
pub use laws::{accepted_certificates_win, claimed_moves_win};
pub use limits::limits_are_those_of_the_manual;
pub use lines::{End, LEAST_CASES, LEAST_MANY, Line, Lines, MOST_CASES, MOST_NUMBER};
pub use lists::{CertText, Numbers};
pub use raising::{copy, raise};
pub use reading::read;
pub use reasons::Reason;
pub use refusals::{CertError, Memory};
pub use rule_lines::lines_are_rules;
pub use spellable::is_writable;
pub use spelling::written_text_is_read_back;
pub use statements::Statement;
pub use verdicts::Verdict;
pub use versions::{most_lines, version_for};
pub use writing::write;
