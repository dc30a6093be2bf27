//! A mesh of wires between elements: the conductance between the edges, and the flow of each
//! element.

ghost use Rattle.std.specs.Prelude.{◌≤◌};

use hex_board::MOST_ELEMENTS;
use std::alloc::{AllocError, Global};

// A number for each element before the one whose row it is.
type Row = [u32; MOST_ELEMENTS];

// The processor works off so many numbers at once.
const EIGHT: usize = 8;

// The length of a row of whole eights.
const LONG: usize = 128;

// The same, where the places up to the next eight are of no account either, or 0.
type LongRow = [u32; LONG];

// A share, and a potential, is in 2^31st parts.
const SHARE_SHIFT: u32 = 31;

// As many bits has a number of a mesh.
const WORD: u64 = 1 << 32;

// A part times this, by the sum, is the share 2^32 times: less than 2^64, since no part is greater
// than the sum.
const INVERSE: u64 = 1 << 63;

/// Wires between elements, of which 0 and 1 are the edges between which the voltage stands.
#[derive(Drop)]
pub struct Mesh {
    wires: Vec<Row>,
    // What is left of the wires as elements are taken out.
    rest: Vec<LongRow>,
    // Of each element that was taken out the least one to which it had a wire, the edges left out.
    least: [usize; MOST_ELEMENTS],
    flows: [u64; MOST_ELEMENTS],
}

impl Mesh {
    /// A mesh without wires.
    pub fn make(alloc: Global) -> Result<Mesh, AllocError> {
        let wires = vec![in alloc; [0u32; MOST_ELEMENTS]; MOST_ELEMENTS]?;
        let rest = vec![in alloc; [0u32; LONG]; MOST_ELEMENTS]?;
        Ok(Mesh {
            wires,
            rest,
            least: [0; MOST_ELEMENTS],
            flows: [0; MOST_ELEMENTS],
        })
    }

    /// Takes all wires away.
    pub fn clear(&mut self) {
        self.wires.fill([0; MOST_ELEMENTS]);
    }

    /// The conductances of an element's wires, to be written: at the place of each element before
    /// it that of the wire between both, or 0. The places from its own on are of no account. They
    /// stay as they are written. `None` from [`MOST_ELEMENTS`] on.
    pub fn wires(&mut self, element: usize) -> Option<&mut [u32; MOST_ELEMENTS]> {
        self.wires.get_mut(element)
    }

    /// Finds the total and the flows by the wires of the first so many elements. Those of each
    /// should add up to less than 2^31, or the numbers mean nothing.
    pub fn solve(&mut self, count: usize) {
        // The total is always in the row of the second edge.
        copy_rows(&self.wires, &mut self.rest, count.max(2));
        for element in (2..count.min(MOST_ELEMENTS)).rev() {
            self.least[element] = take_out(&mut self.rest, element);
        }
        let potentials = potentials_of(&self.rest, &self.least, count);
        self.flows = flows_of(&self.wires, &self.least, count, &potentials);
    }

    /// The conductance between the edges, and at least 1.
    pub fn total(&self) -> u32
        ensures { 1 ≤ result }
    {
        match self.rest.get(1) {
            Some(row) => row[0].max(1),
            None => 1,
        }
    }

    /// The current that comes to an element and the one that goes, where that between the edges is
    /// [`Mesh::total`]; 0 past the last.
    pub fn flow(&self, element: usize) -> u64 {
        self.flows.get(element).copied().unwrap_or(0)
    }
}

// Copies the first so many rows, each up to its element.
fn copy_rows(from: &[Row], to: &mut [LongRow], count: usize) {
    for (element, (copy, row)) in to.iter_mut().zip(from.iter()).enumerate().take(count) {
        copy_row(row, copy, element);
    }
}

// Copies the first so many numbers of a row.
fn copy_row(from: &Row, to: &mut LongRow, count: usize) {
    for x in 0..count.min(MOST_ELEMENTS) {
        to[x] = from[x];
    }
}

// Takes an element out that is no edge: its wires give way to a mesh, and its row has their shares
// from then on. The least element to which it had a wire, the edges left out.
fn take_out(rest: &mut [LongRow], element: usize) -> usize {
    let Some(row) = rest.get_mut(element) else {
        return element;
    };
    cut(row, element);
    let mut star = *row;
    let least = least_end(&star, element);
    put_shares(row, least, element);
    let shares = *row;
    let (first, second) = (star[0], star[1]);
    star[0] = 0;
    star[1] = 0;
    if let Some(row) = rest.get_mut(1) {
        row[0] = row[0].wrapping_add(shared(shares[1], first));
    }
    for x in least..element.min(LONG) {
        let share = shares[x];
        if 0 < share
            && let Some(row) = rest.get_mut(x)
        {
            row[0] = row[0].wrapping_add(shared(share, first));
            row[1] = row[1].wrapping_add(shared(share, second));
            add_shared(row, &star, share, least / EIGHT * EIGHT, eights(x));
        }
    }
    least
}

// Puts 0 behind the first so many numbers of a row, up to the next eight.
fn cut(row: &mut LongRow, count: usize) {
    for x in count..eights(count).min(LONG) {
        row[x] = 0;
    }
}

// So many places, rounded up to whole eights.
fn eights(count: usize) -> usize {
    count.min(LONG).div_ceil(EIGHT) * EIGHT
}

// Puts shares in place of the numbers of the edges, and of those from the least one to before the
// element's own.
fn put_shares(row: &mut LongRow, least: usize, element: usize) {
    let sum = sum_of(row, least, element).max(1);
    let inverse = INVERSE / sum;
    for x in 0..2 {
        row[x] = share_of(row[x], sum, inverse);
    }
    for x in least..element.min(LONG) {
        row[x] = share_of(row[x], sum, inverse);
    }
}

// The sum of the numbers of the edges, and of those from the least one to before the element's own.
fn sum_of(row: &LongRow, least: usize, element: usize) -> u64 {
    let mut sum = u64::from(row[0]) + u64::from(row[1]);
    for x in least..element.min(LONG) {
        sum = sum.saturating_add(u64::from(row[x]));
    }
    sum
}

// How many of a sum's 2^31st parts a part is, rounded down. `inverse` is [`INVERSE`] by the sum:
// so a product takes the place of a division, and is at most 1 too small.
#[inline(always)]
fn share_of(part: u32, sum: u64, inverse: u64) -> u32 {
    let part = u64::from(part);
    let near = part.wrapping_mul(inverse) >> u32::BITS;
    let left = (part << SHARE_SHIFT).wrapping_sub(near.wrapping_mul(sum));
    let share = near.wrapping_add(u64::from(sum <= left));
    (share % WORD) as u32
}

// The least element to which a wire of the star leads, the edges left out; `count` if none does.
// Elements are numbered by their cells, so few lie between it and the star's own.
fn least_end(star: &LongRow, count: usize) -> usize {
    for x in 2..count.min(LONG) {
        if 0 < star[x] {
            return x;
        }
    }
    count
}

// Adds to the numbers of a row at places from one to before another as many 2^31st parts of those
// of another row.
#[inline(always)]
fn add_shared(row: &mut LongRow, star: &LongRow, share: u32, from: usize, to: usize) {
    for x in from..to.min(LONG) {
        row[x] = row[x].wrapping_add(shared(share, star[x]));
    }
}

// So many 2^31st parts of a number.
#[inline(always)]
fn shared(share: u32, number: u32) -> u32 {
    ((u64::from(share) * u64::from(number) >> SHARE_SHIFT) % WORD) as u32
}

// The potentials of the elements: 1 of the first edge, 0 of the second, and of each other one the
// mean of those below it by its shares.
fn potentials_of(rest: &[LongRow], least: &[usize; MOST_ELEMENTS], count: usize) -> LongRow {
    let mut potentials = [0u32; LONG];
    potentials[0] = 1 << SHARE_SHIFT;
    for element in 2..count.min(MOST_ELEMENTS) {
        if let Some(row) = rest.get(element) {
            potentials[element] = mean_of(row, least[element], element, &potentials);
        }
    }
    potentials
}

// The mean of the potentials of the edges, and of those from the least one to before the element's
// own, by these shares.
fn mean_of(row: &LongRow, least: usize, element: usize, potentials: &LongRow) -> u32 {
    let mut sum = shared(row[0], potentials[0]);
    for x in least..element.min(LONG) {
        sum = sum.wrapping_add(shared(row[x], potentials[x]));
    }
    sum
}

// The flows of the elements: what comes and goes through their wires at these potentials. An
// element's wires lead no further than when it was taken out.
fn flows_of(
    wires: &[Row],
    least: &[usize; MOST_ELEMENTS],
    count: usize,
    potentials: &LongRow,
) -> [u64; MOST_ELEMENTS] {
    let mut flows = [0u64; MOST_ELEMENTS];
    for element in 1..count.min(MOST_ELEMENTS) {
        if let Some(row) = wires.get(element) {
            let to_edges = add_flows(
                row,
                0,
                element.min(2),
                potentials[element],
                potentials,
                &mut flows,
            );
            let others = add_flows(
                row,
                least[element].max(2),
                element,
                potentials[element],
                potentials,
                &mut flows,
            );
            flows[element] = flows[element]
                .saturating_add(to_edges)
                .saturating_add(others);
        }
    }
    flows
}

// Adds the currents through the wires of an element's row at these places to the flows at their
// ends: how much that is.
fn add_flows(
    row: &Row,
    from: usize,
    to: usize,
    potential: u32,
    potentials: &LongRow,
    flows: &mut [u64; MOST_ELEMENTS],
) -> u64 {
    let mut all = 0u64;
    for x in from..to.min(MOST_ELEMENTS) {
        if 0 < row[x] {
            let drop = potential.abs_diff(potentials[x]);
            let current = u64::from(shared(drop, row[x]));
            all = all.saturating_add(current);
            flows[x] = flows[x].saturating_add(current);
        }
    }
    all
}
