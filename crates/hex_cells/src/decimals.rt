//! Numbers in decimal: small ones (the rows of vertices, of pictures and of records) into bytes of
//! the caller, and any at the end of a text.

ghost use Rattle.std.specs.Prelude.{◌≡◌, ◌<◌, ◌≤◌, ◌++◌, OnOk, drop, length, take};
ghost use Rattle.std.specs.Fmt.{decimal};

use std::alloc::{AllocError, Global};

/// Bytes that are room for the decimal of any number below 100.
pub const DECIMAL_LEN: usize = 2;

/// Writes a number below 100 in decimal, without leading zero, at the start of `out`, and answers
/// its length, 1 or 2. The rest of `out` stays.
pub fn write_decimal(number: u32, out: &mut [u8]) -> usize
    requires number { number < 100 }
    requires room { DECIMAL_LEN ≤ length out.old }
    ensures text { take result out.new ≡ decimal number }
    ensures length { (1 ≤ result) × (result ≤ DECIMAL_LEN) }
    ensures rest { drop result out.new ≡ drop result out.old }
{
    if number < 10 {
        out[0] = b'0' + number as u8;
        1
    } else {
        out[0] = b'0' + (number / 10) as u8;
        out[1] = b'0' + (number % 10) as u8;
        2
    }
}

/// Writes a number in decimal, without leading zeros, at the end of the text. It refuses only if
/// memory runs out.
pub fn push_number(alloc: Global, text: &mut Vec<u8>, number: u64) -> Result<(), AllocError>
    ensures { OnOk result (text.new.items ≡ text.old.items ++ decimal number) }
{
    text.extend_from_slice(number.to_string(alloc)?.as_bytes())
}
