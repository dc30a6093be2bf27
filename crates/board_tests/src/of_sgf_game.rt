//! Records that show the rules of reading, with ample memory.

use hex_game::Game;
use sgf_game::{GameError, from_game, read_game, to_game};
use sgf_tree::{parse, print};
use std::alloc::Global;
use std::test::Fail;

/// The game of a text.
fn read(alloc: Global, text: &[u8]) -> Result<Game, GameError> {
    let Ok(collection) = parse(alloc, text) else {
        return Err(GameError::Memory);
    };
    to_game(alloc, &collection)
}

/// The record of a text's game, printed.
fn reprinted(alloc: Global, text: &[u8]) -> Result<Vec<u8>, GameError> {
    let game = read(alloc, text)?;
    let Ok(record) = from_game(alloc, &game) else {
        return Err(GameError::Memory);
    };
    let Ok(printed) = print(alloc, &record) else {
        return Err(GameError::Memory);
    };
    printed
        .as_slice()
        .to_vec(alloc)
        .map_err(|_| GameError::Memory)
}

// A record of a game, a text that is cut off, and a record of no game.
#[test]
fn bytes_are_read(rt: HostRuntime) -> Result<(), Fail> {
    let rows: [(&[u8], bool); 3] = [
        (b"(;GM[11]SZ[3];B[a1])", true),
        (b"(;GM[11]SZ[3];B[a1]", false),
        (b"(;GM[1])", false),
    ];
    for (bytes, is_game) in rows {
        assert_eq!(rt; read_game(rt.alloc(), bytes)?.is_some(), is_game);
    }
    Ok(())
}

#[test]
fn refused(rt: HostRuntime) -> Result<(), Fail> {
    let cases: [(&[u8], GameError); 24] = [
        (b"(;)", GameError::NotHex),
        (b"(;(;(;GM[11])))", GameError::NotHex),
        (b"(;GM[1])", GameError::NotHex),
        (b"(;GM[1]GM[11])", GameError::NotHex),
        (b"(;GM[11]SZ[12])", GameError::BadSize),
        (b"(;GM[11]SZ[03])", GameError::BadSize),
        (b"(;GM[11]SZ[3:4])", GameError::BadSize),
        (b"(;GM[11]SZ[12]AE[a1];B[q9])", GameError::BadSize),
        (b"(;GM[11]SZ[3]AB[a1]AW[a1])", GameError::BadSetup),
        (b"(;GM[11]SZ[3];AB[a1])", GameError::BadSetup),
        (b"(;GM[11]SZ[3];AW[a1])", GameError::BadSetup),
        (b"(;GM[11]SZ[3]AE[a1])", GameError::BadSetup),
        (b"(;GM[11]SZ[3];B[a1]AE[b1])", GameError::BadSetup),
        (b"(;GM[11]SZ[3]AB[a1:b2])", GameError::BadSetup),
        (b"(;GM[11]SZ[3]AB[b2][ B2 ])", GameError::BadSetup),
        (
            b"(;GM[11]SZ[3];B[a1];W[a1])",
            GameError::BadMove { index: 1 },
        ),
        (b"(;GM[11]SZ[3];B[a1][b1])", GameError::BadMove { index: 0 }),
        (
            b"(;GM[11]SZ[3];B[a1]W[b1])",
            GameError::BadMove { index: 0 },
        ),
        (
            b"(;GM[11]SZ[3];B[a1];W[resign]B[b2])",
            GameError::BadMove { index: 1 },
        ),
        (b"(;GM[11]SZ[3];B[])", GameError::BadMove { index: 0 }),
        (b"(;GM[11]SZ[3];B[swap])", GameError::BadMove { index: 0 }),
        (
            b"(;GM[11]SZ[3]AB[a1];W[swap-pieces])",
            GameError::BadMove { index: 0 },
        ),
        (
            b"(;GM[11]SZ[1]B[a1];W[a1])",
            GameError::BadMove { index: 1 },
        ),
        (
            b"(;GM[11]SZ[3];B[a1];B[b1];W[d1])",
            GameError::BadMove { index: 2 },
        ),
    ];
    for (text, want) in cases {
        assert_eq!(rt; read(rt.alloc(), text).err(), Some(want), "{want:?}");
    }
    Ok(())
}

#[test]
fn sixty_four_deep(rt: HostRuntime) -> Result<(), Fail> {
    let mut text = Vec::new(rt.alloc());
    for _ in 0..64 {
        text.extend_from_slice(b"(;")?;
    }
    for _ in 0..64 {
        text.push(b')')?;
    }
    assert_eq!(rt; read(rt.alloc(), &text).err(), Some(GameError::NotHex));
    Ok(())
}

#[test]
fn read_and_written(rt: HostRuntime) -> Result<(), Fail> {
    let cases: [(&[u8], &[u8]); 14] = [
        (
            b" \t(;GM[ 11 ]SZ[3 ]\n;B[ A1 ])\n",
            b"(;FF[4]GM[11]SZ[3];B[a1])",
        ),
        (b"(;GM[11])", b"(;FF[4]GM[11]SZ[11])"),
        (b"(;GM[11][1]GM[2])", b"(;FF[4]GM[11]SZ[11])"),
        (b"(;GM[11]SZ[10])", b"(;FF[4]GM[11]SZ[10])"),
        (b"(;GM[11]SZ[3:3])", b"(;FF[4]GM[11]SZ[3])"),
        (b"(;GM[11]SZ[3][12])", b"(;FF[4]GM[11]SZ[3])"),
        (b"(;GM[11]SZ[3]SZ[12])", b"(;FF[4]GM[11]SZ[3])"),
        (
            b"(;GM[11]SZ[3];B[a1];B[resign];W[q9])",
            b"(;FF[4]GM[11]SZ[3];B[a1])",
        ),
        (
            b"(;GM[11]SZ[3];B[a1];W[resign];AE[b1])",
            b"(;FF[4]GM[11]SZ[3];B[a1])",
        ),
        (
            b"(;GM[11]SZ[1]B[a1];W[Forfeit](;B[a1]))",
            b"(;FF[4]GM[11]SZ[1];B[a1])",
        ),
        (
            b"(;GM[11]SZ[3];B[a1];W[SWAP-PIECES])",
            b"(;FF[4]GM[11]SZ[3];B[a1];W[swap-pieces])",
        ),
        (
            b"(;GM[11]SZ[3];B[a1](;W[b2])(;W[c3]))",
            b"(;FF[4]GM[11]SZ[3];B[a1];W[b2])",
        ),
        (
            b"(;GM[11]SZ[3]AB[b1]AW[a1])",
            b"(;FF[4]GM[11]SZ[3]AB[b1]AW[a1])",
        ),
        (
            b"(;FF[4]GM[11]SZ[3]AP[Editor:0.9]C[a\\]b];B[a2];W[swap-pieces];B[c3])",
            b"(;FF[4]GM[11]SZ[3];B[a2];W[swap-pieces];B[c3])",
        ),
    ];
    for (text, want) in cases {
        let written = reprinted(rt.alloc(), text)?;
        assert_eq!(rt; written.as_slice(), want);
        let again = reprinted(rt.alloc(), want)?;
        assert_eq!(rt; again.as_slice(), want);
    }
    Ok(())
}
