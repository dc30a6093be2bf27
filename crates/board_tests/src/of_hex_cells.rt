//! What no clause says of itself: vectors from outside, and each public call once.

use super::of_hex_board::cell_at;
use hex_cells::{
    Cell, CellSet, Colour, DECIMAL_LEN, MOST_CELLS, Size, VERTEX_LEN, edge, neighbours,
    push_number, read_vertex, write_decimal, write_vertex,
};
use std::process::Abort;
use std::rt::HostRuntime;
use std::test::Fail;

#[test]
fn reads_vertices(rt: HostRuntime) -> Result<(), Fail> {
    let table: [(u32, &[u8], Option<u32>); 12] = [
        (11, b"K11", Some(120)),
        (11, b"a1", Some(0)),
        (11, b"b1", Some(1)),
        (11, b"A2", Some(11)),
        (11, b"l1", None),
        (11, b"a12", None),
        (3, b"d1", None),
        (3, b"a4", None),
        (3, b"a0", None),
        (3, b"a01", None),
        (3, b"1a", None),
        (3, b"", None),
    ];
    for (n, text, want) in table {
        let size = Size::of(n).ok_or("a size")?;
        let number = match read_vertex(text, size) {
            Some(cell) => Some(cell.number()),
            None => None,
        };
        assert_eq!(rt; number, want);
    }
    Ok(())
}

#[test]
fn writes_vertices(rt: HostRuntime) -> Result<(), Fail> {
    let table: [(u32, &[u8]); 4] = [(0, b"a1"), (10, b"k1"), (23, b"b3"), (120, b"k11")];
    for (number, want) in table {
        let size = Size::of(11).ok_or("a size")?;
        let mut out = [0; VERTEX_LEN];
        assert!(rt; number < MOST_CELLS);
        let len = write_vertex(Cell::at(size, number % 11, number / 11), size, &mut out);
        assert_eq!(rt; &out[..len], want);
    }
    Ok(())
}

#[test]
fn writes_decimals(rt: HostRuntime) -> Result<(), Fail> {
    let table: [(u32, &[u8]); 4] = [(0, b"0"), (9, b"9"), (10, b"10"), (99, b"99")];
    for (number, want) in table {
        let mut out = [0; DECIMAL_LEN];
        assert!(rt; number < 100);
        let len = write_decimal(number, &mut out);
        assert_eq!(rt; &out[..len], want);
    }
    Ok(())
}

#[test]
fn pushes_numbers(rt: HostRuntime) -> Result<(), Fail> {
    let mut text = b"n ".to_vec(rt.alloc())?;
    push_number(rt.alloc(), &mut text, 0)?;
    text.push(b' ')?;
    push_number(rt.alloc(), &mut text, u64::MAX)?;
    let want: &[u8] = b"n 0 18446744073709551615";
    assert_eq!(rt; text.as_slice(), want);
    Ok(())
}

#[test]
fn names_colours(rt: HostRuntime) -> Result<(), Fail> {
    let table: [(Colour, &[u8]); 2] = [(Colour::Black, b"black"), (Colour::White, b"white")];
    for (colour, want) in table {
        assert_eq!(rt; colour.word(), want);
    }
    Ok(())
}

#[test]
fn board_graph(rt: HostRuntime) -> Result<(), Fail> {
    assert!(rt; Size::of(0).is_none() && Size::of(12).is_none());
    let size = Size::of(3).ok_or("a size")?;
    assert_eq!(rt; (size.get(), size.cells()), (3, 9));
    let corner = neighbours(cell_at(&rt, size, 0, 0), size);
    let beside = set_of(&rt, size, &[(1, 0), (0, 1)]);
    assert_eq!(rt; (corner.count(), corner), (2, beside));
    // The middle has all but the two corners that lie in its own diagonal.
    let centre = cell_at(&rt, size, 1, 1);
    let middle = neighbours(centre, size);
    let apart = set_of(&rt, size, &[(0, 0), (1, 1), (2, 2)]);
    assert_eq!(rt; middle, CellSet::all(size).minus(apart));
    assert_eq!(rt; middle.count(), 6);
    assert_eq!(rt; CellSet::none().with(centre).around(size), middle);
    Ok(())
}

#[test]
fn board_edges(rt: HostRuntime) -> Result<(), Fail> {
    let size = Size::of(3).ok_or("a size")?;
    let (black, white) = (Colour::Black, Colour::White);
    assert_eq!(rt; (black.other(), white.other()), (white, black));
    let both = edge(black, true, size).meet(edge(white, true, size));
    assert_eq!(rt; both, set_of(&rt, size, &[(2, 2)]));
    assert!(rt; edge(black, false, size).has(cell_at(&rt, size, 1, 0)));
    assert!(rt; edge(white, false, size).has(cell_at(&rt, size, 0, 1)));
    Ok(())
}

// The cells at these columns and rows.
fn set_of(rt: &impl Abort, size: Size, cells: &[(u32, u32)]) -> CellSet {
    let mut set = CellSet::none();
    for (column, row) in cells {
        set = set.with(cell_at(rt, size, *column, *row));
    }
    set
}

#[test]
fn sets(rt: HostRuntime) -> Result<(), Fail> {
    let size = Size::of(11).ok_or("a size")?;
    let low = cell_at(&rt, size, 0, 0);
    let high = cell_at(&rt, size, 10, 10);
    assert_eq!(rt;
        (high.number(), high.column(size), high.row(size)),
        (120, 10, 10)
    );
    let both = CellSet::none().with(high).with(low);
    assert_eq!(rt; (both.count(), both.rank(high), both.rank(low)), (2, 1, 0));
    assert_eq!(rt; (both.least(), CellSet::none().least()), (Some(low), None));
    assert_eq!(rt; both.without(low), both.minus(CellSet::none().with(low)));
    Ok(())
}

#[test]
fn all_cells(rt: HostRuntime) -> Result<(), Fail> {
    let size = Size::of(11).ok_or("a size")?;
    let (none, all) = (CellSet::none(), CellSet::all(size));
    let both = set_of(&rt, size, &[(0, 0), (10, 10)]);
    assert!(rt; both.inside(all) && !all.inside(both));
    assert!(rt; both.meets(all) && !both.meets(none));
    assert!(rt; none.is_empty() && !both.is_empty());
    assert_eq!(rt; all.count(), MOST_CELLS);
    let ends = CellSet::none().with(all.nth(0)).with(all.nth(120));
    assert_eq!(rt; ends, both);
    Ok(())
}

#[test]
fn sets_as_numbers(rt: HostRuntime) -> Result<(), Fail> {
    let size = Size::of(11).ok_or("a size")?;
    let first = CellSet::none().with(Cell::numbered(0));
    let last = CellSet::none().with(Cell::numbered(120));
    assert_eq!(rt; (first.bits(), last.bits()), (1, 1 << 120));
    assert_eq!(rt; CellSet::of_bits(1 | 1 << 120), first.union(last));
    assert_eq!(rt; CellSet::of_bits((1 << 121) - 1), CellSet::all(size));
    Ok(())
}
