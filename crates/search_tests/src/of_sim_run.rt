//! The trees of schedules, against those that another program computed from the rules alone.

use hex_board::Board;
use hex_cells::{CellSet, Colour, Size};
use sim_run::{SimError, simulate};
use std::alloc::{AllocError, Global};
use std::test::Fail;
use tree_words::{Closed, Knobs, Shape};

// Size, workers, playouts and expand number of a search.
type Search = (u32, u32, u32, u32);

// A schedule: numbers of workers, and how often they come.
type Parts<'a> = &'a [(&'a [u8], u32)];

// A child's visits and wins, its seen visits and seen wins.
type Child = (u64, u64, u64, u64);

// The root's children, and NEXT, TICKET and the number of linked blocks.
type Tree<'a> = (&'a [Child], (u64, u64, u64));

// The empty board of the size, Black to move, all cells allowed, if the numbers are in their
// ranges.
pub(crate) fn shape_of(search: Search) -> Option<Shape> {
    let (number, workers, playouts, expand) = search;
    let size = Size::of(number)?;
    let board = Board::of(size, CellSet::none(), CellSet::none());
    let allowed = board.empties();
    allowed.least()?;
    let in_range = (1..=64).contains(&workers)
        && (1..=1_000).contains(&playouts)
        && (1..=1_000).contains(&expand);
    if !in_range {
        return None;
    }
    let knobs = Knobs {
        workers,
        playouts,
        seed: 0,
        words: 1_024,
        expand,
        weight: 180,
    };
    Some(Shape::make(&board, Colour::Black, allowed, &knobs))
}

// The numbers of one part.
fn push_part(schedule: &mut Vec<u8>, ids: &[u8], times: u32) -> Result<(), AllocError> {
    for _ in 0..times {
        schedule.extend_from_slice(ids)?;
    }
    Ok(())
}

// The schedule of these parts.
fn schedule_of(alloc: Global, parts: Parts) -> Result<Vec<u8>, AllocError> {
    let mut schedule = Vec::new(alloc);
    for &(ids, times) in parts {
        push_part(&mut schedule, ids, times)?;
    }
    Ok(schedule)
}

// The word at a place, or 0 behind the last.
fn word(closed: &Closed, at: u64) -> u64 {
    closed.words().get(at as usize).copied().unwrap_or(0)
}

// Whether the nodes one after another, the first of which begins there, have these counts.
fn has_children(closed: &Closed, first: u64, children: &[Child]) -> bool {
    let mut at = first;
    for &(visits, wins, seen, seen_wins) in children {
        let tally = word(closed, at.wrapping_add(2));
        let gleam = word(closed, at.wrapping_add(3));
        if (tally >> 32, tally % (1 << 32)) != (visits, wins)
            || (gleam >> 32, gleam % (1 << 32)) != (seen, seen_wins)
        {
            return false;
        }
        at = at.wrapping_add(4);
    }
    true
}

// How many of so many nodes, the first of which begins there, have a link.
fn links_of(closed: &Closed, first: u64, nodes: u64) -> u64 {
    let mut at = first;
    let mut links = 0u64;
    for _ in 0..nodes {
        if word(closed, at.wrapping_add(1)) != 0 {
            links = links.wrapping_add(1);
        }
        at = at.wrapping_add(4);
    }
    links
}

// The number of linked blocks: the root's, and one for each link. A block that lost a race has no
// link.
fn blocks_of(closed: &Closed, area: u64) -> u64 {
    let mut at = area;
    let mut blocks = 1u64;
    for _ in 0..1_000 {
        let nodes = word(closed, at.wrapping_add(3));
        if nodes == 0 || word(closed, at) == 0 {
            return blocks;
        }
        blocks = blocks.wrapping_add(links_of(closed, at.wrapping_add(4), nodes));
        at = at.wrapping_add(nodes.wrapping_mul(4)).wrapping_add(4);
    }
    0
}

// The first two rows are `schedule-followed`, the fourth is `schedule-of-zeros`. In the last three
// two workers race for one block, which one of them loses.
#[test]
fn trees(rt: HostRuntime) -> Result<(), Fail> {
    let table: [(Search, Parts, Tree); 9] = [
        (
            (2, 2, 2, 8),
            &[(&[0, 1], 100)],
            (
                &[(2, 1, 2, 1), (0, 0, 0, 0), (0, 0, 1, 1), (0, 0, 1, 0)],
                (28, 4, 1),
            ),
        ),
        (
            (2, 2, 2, 8),
            &[(&[0], 100)],
            (
                &[(1, 0, 1, 0), (1, 1, 1, 1), (0, 0, 1, 1), (0, 0, 1, 0)],
                (28, 4, 1),
            ),
        ),
        (
            (3, 2, 2, 8),
            &[(&[0, 1], 100)],
            (
                &[
                    (2, 1, 2, 1),
                    (0, 0, 1, 0),
                    (0, 0, 1, 1),
                    (0, 0, 2, 1),
                    (0, 0, 1, 1),
                    (0, 0, 0, 0),
                    (0, 0, 0, 0),
                    (0, 0, 2, 1),
                    (0, 0, 1, 0),
                ],
                (48, 4, 1),
            ),
        ),
        (
            (3, 4, 9, 8),
            &[(&[0], 4_000)],
            (
                &[
                    (1, 1, 8, 7),
                    (1, 0, 3, 2),
                    (1, 1, 5, 5),
                    (1, 1, 6, 5),
                    (1, 1, 4, 4),
                    (1, 1, 4, 4),
                    (1, 1, 4, 4),
                    (1, 1, 6, 5),
                    (1, 1, 5, 4),
                ],
                (55, 13, 1),
            ),
        ),
        (
            (2, 3, 8, 2),
            &[(&[0, 1, 2], 1_000)],
            (
                &[(3, 2, 3, 2), (3, 3, 4, 4), (2, 1, 7, 6), (0, 0, 2, 0)],
                (34, 11, 1),
            ),
        ),
        (
            (2, 2, 8, 1),
            &[],
            (
                &[(2, 1, 2, 1), (2, 2, 5, 5), (2, 2, 6, 5), (2, 1, 3, 1)],
                (34, 10, 1),
            ),
        ),
        (
            (2, 2, 6, 1),
            &[(&[1], 60)],
            (
                &[(1, 0, 1, 0), (3, 3, 5, 5), (1, 1, 3, 3), (1, 1, 3, 2)],
                (64, 8, 2),
            ),
        ),
        (
            (2, 2, 6, 1),
            &[(&[0], 100), (&[0, 1], 200)],
            (
                &[(1, 0, 1, 0), (3, 3, 5, 5), (1, 1, 3, 3), (1, 1, 3, 2)],
                (64, 8, 2),
            ),
        ),
        (
            (2, 2, 8, 1),
            &[(&[0], 100), (&[0, 1], 200)],
            (
                &[(1, 0, 1, 0), (3, 3, 6, 6), (3, 2, 5, 4), (1, 1, 4, 2)],
                (98, 10, 3),
            ),
        ),
    ];
    for (search, parts, (children, (next, ticket, blocks))) in table {
        let shape = shape_of(search).ok_or("a shape")?;
        let schedule = schedule_of(rt.alloc(), parts)?;
        let closed = simulate(rt.alloc(), &shape, &schedule)?;
        let area = u64::from(shape.area());
        assert_eq!(rt; word(&closed, 0), next);
        assert_eq!(rt; word(&closed, 1), ticket);
        assert_eq!(rt; blocks_of(&closed, area), blocks);
        assert!(rt;
            has_children(&closed, area.wrapping_add(4), children),
            "the children of the root in the tree whose NEXT is {next}"
        );
    }
    Ok(())
}

// With 20 steps the first worker has not added its visit when the second one chooses, with 21 it
// has: each entry is one step of the worker that it names.
#[test]
fn each_entry_is_one_step(rt: HostRuntime) -> Result<(), Fail> {
    let shape = shape_of((2, 2, 2, 8)).ok_or("a shape")?;
    let area = 8;
    for (zeros, visits) in [(20, [2, 0]), (21, [1, 1])] {
        let schedule = schedule_of(rt.alloc(), &[(&[0], zeros), (&[1], 100)])?;
        let closed = simulate(rt.alloc(), &shape, &schedule)?;
        let [first, second] = visits;
        assert_eq!(rt; word(&closed, area + 6) >> 32, first);
        assert_eq!(rt; word(&closed, area + 10) >> 32, second);
    }
    Ok(())
}

#[test]
fn refuses_a_stray_number(rt: HostRuntime) -> Result<(), Fail> {
    let shape = shape_of((2, 2, 2, 8)).ok_or("a shape")?;
    for (schedule, at) in [([0, 1, 2], 2), ([255, 0, 2], 0)] {
        let refused = simulate(rt.alloc(), &shape, &schedule);
        assert!(rt; refused.err() == Some(SimError::NoSuchWalker { at }));
    }
    Ok(())
}
