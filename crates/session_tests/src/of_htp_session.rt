//! Sessions over links in memory that take at most so many bytes, one that names no text, and whole
//! inputs. That searches pass the gate is told by of_hex_cli/gates.rt.

ghost use Rattle.std.specs.Prelude.{◌≡◌, ◌^◌};
ghost use Rattle.tree_words.specs.Settings.{AreInRange};

use hex_cells::Size;
use hex_devices::{AnswerError, Devices, InputAnswer, InputError, InputReader, Stop, answer_input};
use hex_engine::Options;
use hex_io::{MemLink, MemShelf};
use hex_plan::{Means, NoArchive};
use htp_session::converse;
use search_team::OpenGate;
use std::alloc::{AllocError, Global};
use std::process::Abort;
use std::test::Fail;
use std::thread::Threads;
use tree_words::Knobs;

/// One worker, who makes one playout.
fn options() -> Options
    ensures { AreInRange result.knobs }
{
    let knobs = Knobs {
        workers: 1,
        playouts: 1,
        seed: 0,
        words: 1_024,
        expand: 8,
        weight: 180,
    };
    Options {
        knobs,
        means: Means::none(),
    }
}

/// A conversation: its input, of which each read gives a piece, the most bytes that it takes, and
/// what is to be given.
#[derive(Clone, Copy)]
struct Row<'a> {
    input: &'a [u8],
    piece: usize,
    limit: usize,
    given: &'a [u8],
}

/// The outcome of a conversation, and by how many writes its answers were given.
fn end_of(
    rt: &(impl Abort + Alloc<A = Global> + Threads + Sync),
    row: &Row<'_>,
) -> Result<(Result<(), Stop>, usize), Fail> {
    let alloc = rt.alloc();
    let size = Size::of(11).ok_or("no size")?;
    let (reads, writes) = (Vec::new(alloc), Vec::new(alloc));
    let input = row.input.to_vec(alloc)?;
    let piece = row.piece.max(1);
    let mut link = MemLink::make(alloc, input, piece, 100_000, 20_000, reads, writes)?;
    let mut shelf = MemShelf::make(alloc, Vec::new(alloc), Vec::new(alloc))?;
    let mut devices: Devices<'_, '_, '_, '_, (_, _, _, _, _)> = Devices {
        link: &mut link,
        shelf: &mut shelf,
        archive: &mut NoArchive,
        rt,
        gate: &OpenGate,
    };
    let end = converse(alloc, &mut devices, &options(), size, row.limit);
    assert_eq!(rt; link.given(), row.given);
    Ok((end, link.write_count()))
}

#[test]
fn limits(rt: HostRuntime) -> Result<(), Fail> {
    let rows: [(&[u8], usize, &[u8], Result<(), Stop>); 5] = [
        (b"name\nname\n", 5, b"= hexd\n\n", Err(Stop::TooLong)),
        (b"name\nname\n", 7, b"= hexd\n\n", Err(Stop::TooLong)),
        (b"name\nname", 9, b"= hexd\n\n= hexd\n\n", Ok(())),
        (b"quit\nname\n", 5, b"= \n\n", Ok(())),
        (b"loadsgf \xff\n", 10, b"? syntax error\n\n", Ok(())),
    ];
    for (input, limit, given, outcome) in rows {
        for piece in [1, 3, 100] {
            let row = Row {
                input,
                piece,
                limit,
                given,
            };
            let (end, _writes) = end_of(&rt, &row)?;
            assert_eq!(rt; end, outcome);
        }
    }
    Ok(())
}

/// The answers to the lines of one read are given by one write. Those before a request that uses
/// something up are given before it is asked.
#[test]
fn given_together(rt: HostRuntime) -> Result<(), Fail> {
    let rows: [(&[u8], &[u8], usize); 6] = [
        (
            b"name\nname\n\nname\n",
            b"= hexd\n\n= hexd\n\n= hexd\n\n",
            1,
        ),
        (b"name\nname", b"= hexd\n\n= hexd\n\n", 2),
        (b"name\nquit\nname\n", b"= hexd\n\n= \n\n", 1),
        (
            b"name\ngenmove\nname\n",
            b"= hexd\n\n? syntax error\n\n= hexd\n\n",
            2,
        ),
        (b"name\nloadsgf a\n", b"= hexd\n\n? cannot load file\n\n", 2),
        (
            b"genmove\nloadsgf a\n",
            b"? syntax error\n\n? cannot load file\n\n",
            2,
        ),
    ];
    for (input, given, writes) in rows {
        let row = Row {
            input,
            piece: 100,
            limit: 100,
            given,
        };
        let (end, made) = end_of(&rt, &row)?;
        assert_eq!(rt; end, Ok(()));
        assert_eq!(rt; made, writes);
    }
    Ok(())
}

/// Answers an input by itself.
struct Echo;

impl InputReader for Echo {
    ghost answers = { λ _ bytes text accepted. text ≡ bytes };

    ghost most = { λ _. 2 ^ 64 };

    fn answer(&self, alloc: Global, input: &[u8]) -> Result<InputAnswer, AllocError> {
        let text = input.to_vec(alloc)?;
        Ok(InputAnswer {
            text,
            accepted: true,
        })
    }
}

#[test]
fn whole_inputs(rt: HostRuntime) -> Result<(), Fail> {
    let alloc = rt.alloc();
    let too_long = AnswerError::Input(InputError::TooLong);
    let rows: [(usize, Result<bool, AnswerError>, &[u8]); 2] = [
        (4, Ok(true), b"name"),
        (3, Err(too_long), b""),
    ];
    for (limit, outcome, given) in rows {
        let (reads, writes) = (Vec::new(alloc), Vec::new(alloc));
        let input = b"name".to_vec(alloc)?;
        let mut link = MemLink::make(alloc, input, 3, 100, 100, reads, writes)?;
        assert_eq!(rt; answer_input(alloc, &mut link, &Echo, limit), outcome);
        assert_eq!(rt; link.given(), given);
    }
    Ok(())
}
