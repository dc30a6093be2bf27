//! Positions and schedules, as other programs computed them. The runs of both modes are rows of
//! of_hex_cli.

use hex_cells::{Colour, Size};
use std::test::Fail;
use turn_modes::{bench_position, schedule};

// The size, the seed, the stones, and those of both players as the bits of a number, as another
// program computed them. In the last two a third of the cells is not reached.
const POSITIONS: [(u32, u64, u32, u128, u128); 6] = [
    (1, 0, 0, 0, 0),
    (2, 0, 1, 4, 0),
    (3, 0, 3, 144, 2),
    (
        11,
        5,
        40,
        108_064_683_320_016_299_602_252_544_994_185_217,
        1_334_420_312_766_023_919_641_290_007_007_429_640,
    ),
    (6, 154, 10, 2_216_755_232, 34_363_936_848),
    (6, 6_382, 11, 62_310_584_320, 17_318_432),
];

#[test]
fn positions(rt: HostRuntime) -> Result<(), Fail> {
    for (size, seed, stones, black, white) in POSITIONS {
        let position = bench_position(Size::of(size).ok_or("a size")?, seed);
        let board = position.board;
        assert_eq!(rt; position.stones, stones, "size {size}, seed {seed}");
        assert_eq!(rt;
            board.stones(Colour::Black).bits(),
            black,
            "size {size}, seed {seed}"
        );
        assert_eq!(rt;
            board.stones(Colour::White).bits(),
            white,
            "size {size}, seed {seed}"
        );
        assert_eq!(rt; position.colour == Colour::Black, stones % 2 == 0);
    }
    Ok(())
}

#[test]
fn schedules(rt: HostRuntime) -> Result<(), Fail> {
    let three = schedule(rt.alloc(), 3, 0, 12)?;
    assert_eq!(rt;
        three.as_slice(),
        [0u8, 1, 1, 0, 1, 0, 2, 2, 0, 0, 0, 0].as_slice()
    );
    let many = schedule(rt.alloc(), 64, 9, 8)?;
    assert_eq!(rt;
        many.as_slice(),
        [38u8, 27, 12, 56, 4, 8, 26, 13].as_slice()
    );
    Ok(())
}
