//! Where the bytes of a session come from and where they go.
//!
//! **What it is.** A *link* is a pair of streams: bytes are read from it and bytes are given to it.
//! [`Link`] is the trait; [`MemLink`] is a link in memory, [`StdLink`] is standard input and
//! output, [`ErrLink`] is standard error, [`FileLink`] writes a file. What a link *tells* are the
//! bytes still to come, those taken and those given, and an *ask* for each read that was answered:
//! how much was taken and given when it began. A *shelf* has files by name: [`Shelf`] is the trait,
//! [`MemShelf`] is a shelf in memory, and [`DirShelf`] has the files of the system. It tells its
//! files, and of each fetch whether it was at fault. A *count* of faults is known of every link and
//! shelf, whether it tells or not. A [`Word`] is one word of a command line.
//!
//! **A caller** is generic over `L: Link`, reads pieces into a buffer of its own and gives each
//! answer whole:
//!
//! ```text
//! let count = link.read(&mut buffer)?;      // 0 only at the end
//! give(link, answer)?;                      // all of it, or a prefix at a fault
//! let file = shelf.fetch(alloc, "game.sgf")?; // `None` if there is no such file
//! report(errors, b"hexd: read fault\n");    // whatever comes of it
//! ```
//!
//! **What is proved.** Bytes are moved in order and none is lost or made up, if a link tells; a
//! fault comes only if its count rose, and then no byte was moved; with every other answer the
//! count is as before. Generic code can't change a count, so a body that gives up without a fault
//! of its link is refused, and one that tries again after a fault if its contract says that no
//! fault came. A fetch answers what the files hold. A `MemLink` and a `MemShelf` tell all and fail
//! exactly if they were told to.
//!
//! **What is only tested, or not said.** What a terminal, a file or another program gave or got:
//! `StdLink`, `ErrLink`, `FileLink` and `DirShelf` tell nothing. A read may wait for its device.
//!
//! **Limits.** A file of [`FILE_LIMIT`] bytes. The limits of a run's input ([`INPUT_LIMIT`]) and
//! of the answers that a session holds ([`MOST_HELD`]) stand here too;
//! [`limits_are_those_of_the_manual`] has all as numbers. A count stands still at the greatest
//! value of a `u64`. `MemLink::make` takes memory for all that it will hold, and a fetch for what
//! it answers; no other call takes any.
//!
//! **Why so.**
//!
//! - Only regular files are loaded: `loadsgf` of a pipe without a writer, or of a device, would
//!   keep a session waiting for good by one line of a stranger. Another user of the folder could
//!   still put a pipe there between the look and the open.
//! - A file for traces is made at its first write, so a run that hands over no tree touches no
//!   file: `audit --trace t <t` would otherwise empty its own input and say yes of nothing. The
//!   price: a session without a searched move leaves an older file as it was, and doesn't say that
//!   a name can't be made. If it can't be made, each write is a counted fault, and none tries
//!   again, since a file that begins in the middle is no list of traces.
//! - A file is missing if the system says so. Every other failure to open (no permission, a name
//!   too long, a path behind a file) is a read fault: a longer list would be a guess at what the
//!   system means.
#![tactic(auto)]

mod directory;
mod file_links;
mod file_shelves;
mod files;
mod giving;
mod in_memory;
mod limits;
mod links;
mod refusals;
mod shelves;
mod source;
mod standard;
mod words;

pub use directory::DirShelf;
pub use file_links::FileLink;
pub use file_shelves::MemShelf;
pub use files::{Bytes, File};
pub use giving::{give, report};
pub use in_memory::MemLink;
pub use limits::{FILE_LIMIT, INPUT_LIMIT, MOST_HELD, limits_are_those_of_the_manual};
pub use links::Link;
pub use refusals::{LinkFault, Memory};
pub use shelves::{Shelf, ShelfError};
pub use standard::{ErrLink, StdLink};
pub use words::Word;
