//! Mode `solve`: who wins the position of a record, and certificates for mode `check`.

use super::runs::{ample, check, run_of};
use super::tables::{bytes_of, check_rows};
use std::test::Fail;

static ANSWERS: &str = "\
budget-one|solve --hsearch off --budget 1|(;GM[11]SZ[2])|0|unknown 1~
first-empty-cell|solve --best on --hsearch off --budget 1|(;GM[11]SZ[2];B[a1])|0|unknown 1~best b1~
best-of-connections|solve --best on --budget 1|(;GM[11]SZ[4];B[d1])|0|unknown 1~best c2~
no-best-cell|solve --best off --hsearch off --budget 1|(;GM[11]SZ[2];B[a1])|0|unknown 1~
over-already|solve|(;GM[11]SZ[1];B[a1])|0|over black~
no-record|solve||1|not a game~";

/// Names, words, records, the first lines of the texts, the first lines of the certificates, which
/// are all the rest, and what mode `check` answers to these.
static WON: &str = "\
budget-for-four-cells|solve --hsearch off --budget 65|(;GM[11]SZ[2])|won black~|hexcert 2~|yes semi~
the-other-moves|solve|(;GM[11]SZ[2];B[a2])|won black~|hexcert 2~|yes full~
no-best-cell-of-a-win|solve --best on|(;GM[11]SZ[2];B[a2])|won black~|hexcert 2~|yes full~
found-for-the-other|solve|(;GM[11]SZ[5];B[e2])|won black~|hexcert 4~|yes full~
found-for-the-mover|solve|(;GM[11]SZ[5];B[a3])|won white~|hexcert 3~|yes semi~
semi-at-the-root|solve --budget 1|(;GM[11]SZ[4]AB[a1][a2][a3])|won black~|hexcert 2~|yes semi~";

#[test]
fn solutions(rt: HostRuntime) -> Result<(), Fail> {
    let alloc = rt.alloc();
    check_rows(&rt, ANSWERS)?;
    for line in WON.lines() {
        let mut fields = line.split('|');
        let name = fields.next().ok_or("a name")?;
        let words = fields.next().ok_or("words")?;
        let record = bytes_of(alloc, fields.next().ok_or("a record")?)?;
        let head = bytes_of(alloc, fields.next().ok_or("a line")?)?;
        let version = bytes_of(alloc, fields.next().ok_or("a version")?)?;
        let verdict = bytes_of(alloc, fields.next().ok_or("a verdict")?)?;
        let left = run_of(&rt, &ample(words, &record))?;
        assert_eq!(rt; left.status, 0, "{name}");
        let certificate = left
            .link
            .given()
            .strip_prefix(head.as_slice())
            .ok_or("a winner")?;
        assert!(rt; certificate.starts_with(&version), "{name}");
        check(&rt, name, &ample("check", certificate), &verdict, 0)?;
    }
    Ok(())
}
