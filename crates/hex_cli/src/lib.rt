//! The top call of `hexd`: from a command line that was read and a link to a status.
//!
//! **What it is.** A *run* does what the words of its command line ask for; its *status* tells how
//! it ended (`End` of hex_devices). In mode `htp` it plays a session of htp_session: a conversation
//! from an empty board, of which the *talk* over the lines taken is what is given. Modes `check`,
//! `migrate`, `audit` and `solve` take their whole input and give one text for it. Modes `sim` and
//! `bench` of turn_modes read nothing, and hand in one turn with its text.
//!
//! **A caller** reads the words, makes the devices, of a link, a shelf, an archive, a runtime and a
//! gate, and the errors, and ends with the status:
//!
//! ```text
//! let line = CommandLine::read(alloc, words)?;
//! let status = run(alloc, &line, &mut devices, &mut errors);
//! ```
//!
//! **What is proved**, of links, shelves and archives that tell what they hold, in the words of
//! specs/Runs.antt, Causes.antt and Modes.antt and of htp_session's specs/Endings.antt:
//!
//! - Mode `htp`: what was given is the talk over the lines of what was taken, as far as each status
//!   says, with the files that came of the shelf's fetches and the turns that the archive took.
//!   With status 0 each line was answered, up to an answered `quit`, and all was used up. All whole
//!   lines taken were answered before the next read, and no read that was answered follows an
//!   answered `quit`. With status 5 the lines that were answered used up all that was used up, so
//!   no turn is thrown away.
//! - Each generated move of a run that is done is legal. Its turn is for the board of the game
//!   before, and stands at its place in the archive. If it is certified it wins against every
//!   reply, and otherwise it is the best of its closed tree (specs/Headline.antt).
//! - Each turn that was used up is good; a move outside the carrier of one of its threats loses,
//!   and if its plan says that the board is lost each move does (specs/Playing.antt).
//! - With one worker and without connections the words, the bytes read and the files determine what
//!   is given (specs/Determined.antt).
//! - In the modes that take their whole input the text is that of the bytes taken
//!   (specs/CertTexts.antt, AuditTexts.antt, SolveTexts.antt), with status 1 exactly if it does not
//!   accept them.
//! - In modes `sim` and `bench` the archive took one turn, and the text is that of this turn, in
//!   the words of turn_modes.
//! - What fails first ends the run: a count of faults rose with its own status (3, 4 or 7) and is
//!   as before with every other. Status 2 comes exactly if the words are not well formed, 6 exactly
//!   if one byte more than [`INPUT_LIMIT`](hex_io::INPUT_LIMIT) was taken, 7 before a `genmove`
//!   that is not refused. The errors get the one line of the status.
//! - The shelf is not used in any mode but `htp`, and the archive not if the input is taken whole.
//!
//! **What is only tested, or not said.** That memory suffices: a run of well-formed words may
//! always end with status 5, which no clause ties to a refused growth; and a quiet answer that is
//! dropped then can't be told from memory that ran out earlier. That a run which met a fault reads
//! and writes no more, if it answers that fault's status all the same. That workers run side by
//! side, which two gates show. How fast it is.
//!
//! **Limits.** An input of [`INPUT_LIMIT`](hex_io::INPUT_LIMIT) bytes. In mode `htp` answers are
//! given before the next read, and before many are held, so no memory grows with the input but the
//! game's own; the modes that take their whole input keep it.
//!
//! **Why so.**
//!
//! - There are three kinds of mode (`ModeKind`). What is done, and what isn't used, is one relation
//!   by kind, behind private clauses; `run` has a clause for each mode, and two on what isn't used.
//!   So a mode has one line that says its kind, and what follows of its kind is proved once.
//! - The clauses of the modes speak of one record (`RunData`): the words, the status and what the
//!   devices hold before and after. `InMode` says once for which words and which end. So a mode is
//!   one relation that can be read aloud.
//! - The headline names a plan's two forms and not what a plan is (`IsGeneratedMove`,
//!   `WinsOrIsBest`), so who asks about searched moves reads nothing of connections; and of a
//!   session that is done only what that owes (`IsDoneSession`), so he reads nothing of other ends.
//!   `good_turns` and `threats` are clauses of their own for the same reason. Each clause of mode
//!   `htp` but `determined` says of a list of loads and turns that the session used up just this
//!   (`PlaysBy`, `IsDoneSession`). An archive that tells fixes the turns; one that doesn't leaves
//!   each clause its own list.
//! - The mover of mode `solve` is the player who didn't make the last step, and Black before any.
//!   The count of stones doesn't tell him: a record may set stones up, a swap changes no count, and
//!   a player may move twice. A decided board is answered by `over`. What is said of a position is
//!   any answer that meets the solver's clauses (`MayBeAnswered`), so it names no order of the
//!   search.
//! - A body that goes on after a fault and answers that fault's status at the end meets the clauses
//!   on counts, which say that a count rose and not how often. The test `faults_each` of
//!   session_tests refuses it.
#![tactic(auto)]

mod audits;
mod certificates;
mod kinds;
mod playing;
mod serving;
mod single_turns;
mod solutions;
mod top;
mod whole_inputs;

pub use top::run;
