//! Bytes in hexadecimal digits: read in either case, written in capitals.
ghost use Rattle.std.specs.Prelude.{◌≡◌, ◌<◌, true, Err, IsSome, IfOk, None, Some, take};
ghost use Rattle.std.specs.Char.{digit_value};
ghost use Rattle.std.specs.Fmt.{digit_glyph};
ghost use Rattle.std.specs.Option.{SomeIff};
ghost use Rattle.digits.specs.Digits.{hex_byte_of, hex_bytes_of, hex_digits};
ghost use Rattle.digits.specs.declared.hex.HexError.TheVariants.{Bad, Memory};

use std::alloc::Global;

/// Returns the value of a hexadecimal digit of either case.
fn hex_digit(byte: u8) -> Option<u8>
    ensures { SomeIff result (digit_value byte < 16) (digit_value byte) }
{
    match byte {
        b'0'..=b'9' => Some(byte - b'0'),
        b'a'..=b'f' => Some(byte - b'a' + 10),
        b'A'..=b'F' => Some(byte - b'A' + 10),
        _ => None,
    }
}

/// Returns the byte of exactly two hexadecimal digits of either case, the high one first. Returns
/// `None` for any other bytes.
pub fn hex_byte(digits: &[u8]) -> Option<u8>
    ensures { result ≡ hex_byte_of digits.now }
{
    match digits {
        [high, low] => Some(hex_digit(*high)? * 16 + hex_digit(*low)?),
        _ => None,
    }
}

/// Why digits are no bytes.
#[derive(Clone, Copy, Debug, PartialEq, Eq)]
pub enum HexError {
    /// Their number is odd, or a character is no digit.
    Bad,
    /// Memory ran out before a bad digit was found.
    Memory,
}

/// Returns the bytes that `text` spells in hexadecimal digits of either case, two for each byte,
/// the high one first. Fails with `Bad` only if `text` is not all pairs of digits, and with
/// `Memory` only if it begins with a pair.
pub fn hex_bytes(alloc: Global, text: &str) -> Result<Vec<u8>, HexError>
    ensures bytes { IfOk result (λ bytes. hex_bytes_of text.now ≡ Some bytes.items) }
    ensures bad { result ≡ Err Bad → hex_bytes_of text.now ≡ None }
    ensures memory { result ≡ Err Memory → IsSome (hex_byte_of (take 2 text.now)) }
{
    let mut bytes = Vec::new(alloc);
    for pair in text.as_bytes().chunks(2) {
        match hex_byte(pair) {
            None => return Err(HexError::Bad),
            Some(byte) => {
                if bytes.push(byte).is_err() {
                    return Err(HexError::Memory);
                }
            }
        }
    }
    Ok(bytes)
}

/// Returns the hexadecimal digit of a number, in capitals.
fn digit_of(number: u8) -> u8
    requires { number < 16 }
    ensures { result ≡ digit_glyph true number }
{
    if number < 10 {
        b'0' + number
    } else {
        b'A' + (number - 10)
    }
}

/// Returns the two hexadecimal digits of a byte, in capitals, the high one first.
pub fn hex_digits(byte: u8) -> [u8; 2]
    ensures { result ≡ hex_digits byte }
{
    [digit_of(byte / 16), digit_of(byte % 16)]
}
