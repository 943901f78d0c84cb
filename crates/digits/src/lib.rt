//! Reads numbers in decimal digits and bytes in hexadecimal digits, for commands and scripts, and
//! writes such bytes.
//!
//! - `decimal(text)` returns the number of decimal digits alone.
//! - `hex_byte(digits)` returns the byte of two hexadecimal digits.
//! - `hex_bytes(alloc, text)` returns the bytes of pairs of hexadecimal digits.
//! - `hex_digits(byte)` returns the two hexadecimal digits of a byte.
#![tactic(auto)]

mod hex;

ghost use Rattle.std.specs.Prelude.{◌≡◌};
ghost use Rattle.digits.specs.Digits.{decimal_of};

pub use hex::{HexError, hex_byte, hex_bytes, hex_digits};

/// Returns the number of decimal digits alone, which may begin with zeros. Returns `None` if `text`
/// is empty or has a sign or another character, and if the number is above `u64::MAX`.
pub fn decimal(text: &str) -> Option<u64>
    ensures { result ≡ decimal_of 64 text.now }
{
    // std's `parse` lets one `+` in front pass.
    if text.starts_with('+') {
        return None;
    }
    text.parse::<u64>().ok()
}
