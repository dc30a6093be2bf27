//! Certificates of the entries of a report.

ghost use Rattle.std.specs.Prelude.{◌≡◌, ◌<◌, All, IfOk, List, length};
ghost use Rattle.conn_store.specs.Entries.{IsValid};
ghost use Rattle.conn_store.specs.Rules.{FollowsFrom};
ghost use Rattle.hex_board.specs.Elements.{element_count};
ghost use Rattle.hex_board.specs.Places.{IsMember, Place};
ghost use Rattle.win_cert.specs.Cuts.{CertifiesEntryAt, HasEdgeEntryAt, HasLinesFor, premises};
ghost use Rattle.win_cert.specs.Cutting.{AreLinesFor, AreStonesOn, IsClosedFrom, IsEndFor};
ghost use Rattle.win_cert.specs.Cutting.{IsLineFor};
ghost use Rattle.conn_store.specs.declared.entries.Entry.{Entry};

use super::marking::marked;
use super::{Cert, End, FIRST_VERSION, Line, Lines, Memory};
use conn_store::{Cause, Entry, Store};
use hex_board::Elements;
use hsearch::Report;
use std::alloc::{AllocError, Global};

/// A certificate of an entry of the report between the player's two edges. It has the first
/// version, the report's board and player, a line for each entry on which the entry rests, in the
/// order of the report's entries, and no other line, and the entry's kind as its claim. It is
/// accepted, with the entry's carrier, and can be written. It refuses only if memory runs out.
pub fn cut(alloc: Global, report: &Report, entry: u32) -> Result<Cert, Memory>
    requires { HasEdgeEntryAt report.now entry }
    ensures certifies { IfOk result (CertifiesEntryAt report.now entry) }
    ensures lines { IfOk result (HasLinesFor report.now entry) }
{
    let store = report.store();
    let marks = marked(alloc, store.entries(), &[entry])?;
    let (lines, numbers) = lines_for(alloc, store, &marks)?;
    Ok(Cert {
        version: FIRST_VERSION,
        board: *store.board(),
        player: store.colour(),
        lines: Lines::of(lines),
        claim: store.entries()[entry as usize].kind,
        entry: numbers[entry as usize],
    })
}

/// The lines of the marked entries, in the store's order, and for each entry the number of its
/// line, or of the next line if it has none.
pub(crate) fn lines_for(
    alloc: Global,
    store: &Store,
    marks: &[bool],
) -> Result<(Vec<Line>, Vec<u32>), AllocError>
    requires number { length marks.now ≡ length store.now.entries }
    requires closed { IsClosedFrom store.now.entries marks.now 0 }
    ensures { IfOk result (λ v. AreLinesFor store.now marks.now (length store.now.entries)
        v.0.items v.1.items) }
{
    let entries = store.entries();
    // The player's stones lie on the board, apart from the opponent's.
    let _stones = store.board().stones(store.colour());
    let mut lines = Vec::new(alloc);
    let mut renamed = Vec::new(alloc);
    let mut number = 0;
    'entries: while number < entries.len() {
        renamed.push(lines.len() as u32)?;
        if marks[number] {
            lines.push(line_of(store.elements(), entries[number], &renamed))?;
        }
        number += 1;
    }
    Ok((lines, renamed))
}

// The line for an entry that follows from others, which have the numbers `renamed`.
fn line_of(elements: &Elements, entry: Entry, renamed: &[u32]) -> Line
    requires valid { IsValid elements.now entry }
    requires stones { AreStonesOn elements.now }
    requires follows { (from : List Entry) × FollowsFrom elements.now from entry }
    requires premises { All (λ i. i < length renamed.now) (premises entry.cause) }
    ensures { IsLineFor elements.now renamed.now entry entry.cause result }
{
    match entry.cause {
        Cause::Adjacent => Line::Adj(end_of(elements, entry.x), end_of(elements, entry.y)),
        Cause::AndGroup(i, j) => Line::And(renamed[i as usize], renamed[j as usize]),
        Cause::AndEmpty(i, j) => Line::Key(renamed[i as usize], renamed[j as usize]),
        Cause::Or(numbers, count) => {
            let first = renamed[numbers[0] as usize];
            let second = renamed[numbers[1] as usize];
            if count == 2 {
                Line::Or2(first, second)
            } else {
                Line::Or3(first, second, renamed[numbers[2] as usize])
            }
        }
    }
}

// An end that names the element: an edge, or the least of its cells.
fn end_of(elements: &Elements, element: u8) -> End
    requires below { element < element_count elements.now }
    requires stones { AreStonesOn elements.now }
    requires place { (p : Place) × IsMember elements.now element p }
    ensures { IsEndFor elements.now element result }
{
    if element == elements.edge(false) {
        return End::First;
    }
    if element == elements.edge(true) {
        return End::Second;
    }
    End::At(elements.cells(element).least().unwrap())
}
