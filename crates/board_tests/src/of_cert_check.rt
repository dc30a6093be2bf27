//! Certificates from end to end: H-search, the cut of an entry, its text, and the check of it.

ghost use Rattle.std.specs.Prelude.{IfSome};
ghost use Rattle.win_cert.specs.Cuts.{HasEdgeEntryAt};
ghost use Rattle.win_cert.specs.Writable.{IsWritable};

use cert_check::check;
use conn_store::Kind;
use hex_board::Board;
use hex_cells::{CellSet, Colour, Size};
use hsearch::{Report, connect};
use std::alloc::Global;
use std::process::Abort;
use std::rt::HostRuntime;
use std::test::Fail;
use win_cert::{Cert, Reason, Verdict, cut, read, write};

// The number of the first semi entry between the player's edges.
fn edge_entry(report: &Report) -> Option<u32>
    ensures { IfSome result (HasEdgeEntryAt report.now) }
{
    let store = report.store();
    let entries = store.entries();
    let (first, second) = (store.elements().edge(false), store.elements().edge(true));
    let mut number = 0;
    'entries: while number < entries.len() {
        let Some(entry) = entries.get(number) else {
            return None;
        };
        let is_between = entry.x == first.min(second) && entry.y == first.max(second);
        if is_between && entry.kind == Kind::Semi {
            return Some(number as u32);
        }
        number += 1;
    }
    None
}

// A certificate of the first semi entry between the edges; `None` if there is no such entry or
// no memory.
fn edge_cert(alloc: Global, report: &Report) -> Option<Cert>
    ensures { IfSome result IsWritable }
{
    let number = edge_entry(report)?;
    cut(alloc, report, number).ok()
}

// Black's first semi entry between the edges on the empty board of this size, cut. `None` if there
// is none, or memory runs out.
fn first_cert(alloc: Global, size: u32) -> Option<Cert>
    ensures { IfSome result IsWritable }
{
    let board = Board::empty(Size::of(size)?);
    let report = connect(alloc, &board, Colour::Black).ok()?;
    edge_cert(alloc, &report)
}

// Whether this is its text.
fn has_text(alloc: Global, size: u32, expected: &[u8]) -> Option<bool> {
    let cert = first_cert(alloc, size)?;
    let text = write(alloc, &cert).ok()?;
    Some(text.as_slice() == expected)
}

// The verdict on it.
fn first_verdict(alloc: Global, size: u32) -> Option<Verdict> {
    let cert = first_cert(alloc, size)?;
    check(alloc, &cert).ok()
}

// On the empty board of this size Black's first semi entry between the edges is found and cut; the
// text of the certificate is this one, and the checker accepts it with this carrier.
fn certify(rt: &impl Abort, alloc: Global, size: u32, expected: &[u8], carrier: CellSet) {
    assert_eq!(rt; has_text(alloc, size, expected), Some(true));
    let claim = Kind::Semi;
    assert_eq!(rt;
        first_verdict(alloc, size),
        Some(Verdict::Yes { claim, carrier })
    );
}

// `cut-one`: the carrier is {a1}.
#[test]
fn edge_entry_of_one_cell(rt: HostRuntime) {
    let text = b"hexcert 1\nsize 1\nplayer black\nblack\nwhite\n\
        adj edge1 a1\nadj edge2 a1\nkey 1 0\nsemi 2\n";
    certify(&rt, rt.alloc(), 1, text, CellSet::of_bits(0b1));
}

// V1 of size 2 in version 3, before and after its `or`.
const FRONT: &[u8] = b"hexcert 3\nsize 2\nplayer black\nblack\nwhite\n\
    adj a2 a1\nadj a1 edge1\nadj a2 b1\nadj b1 edge1\nkey 0 1\nkey 2 3\n";

const BACK: &[u8] = b"adj a2 edge2\nkey 6 7\nsemi 8\n";

// The verdict on a certificate's text; `None` if it is none, or memory runs out.
fn verdict_on(alloc: Global, text: &[u8]) -> Option<Verdict> {
    match read(alloc, text) {
        Ok(cert) => check(alloc, &cert).ok(),
        Err(_) => None,
    }
}

#[test]
fn ors_of_four(rt: HostRuntime) -> Result<(), Fail> {
    let accepted = Verdict::Yes {
        claim: Kind::Semi,
        carrier: CellSet::of_bits(0b111),
    };
    let refused = |reason| Verdict::No { line: 6, reason };
    let rows: [(&[u8], Verdict); 4] = [
        (b"or 4 5 4 5\n", accepted),
        (b"or 4 4 4 4\n", refused(Reason::CommonCell)),
        (b"or 4 5 4 1\n", refused(Reason::BadReference)),
        (b"or 4 5 4 6\n", refused(Reason::BadReference)),
    ];
    for (line, expected) in rows {
        let mut text = FRONT.to_vec(rt.alloc())?;
        text.extend_from_slice(line)?;
        text.extend_from_slice(BACK)?;
        assert_eq!(rt; verdict_on(rt.alloc(), &text), Some(expected));
    }
    Ok(())
}
