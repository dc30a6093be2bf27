//! The numbers of failures, which no clause has. What a session answers are rows of hex_cli's
//! tests.

use hex_engine::Fail;

#[test]
fn failures_have_their_numbers(rt: HostRuntime) {
    let table = [
        (Fail::UnknownCommand, 1u8),
        (Fail::Syntax, 2),
        (Fail::Size, 3),
        (Fail::Illegal, 4),
        (Fail::Over, 5),
        (Fail::NoUndo, 6),
        (Fail::NoLoad, 7),
        (Fail::ReadFault, 8),
        (Fail::NoSearch, 9),
        (Fail::NoCert, 10),
        (Fail::NoLook, 11),
    ];
    for (fail, number) in table {
        assert_eq!(rt; fail as u8, number);
    }
}
