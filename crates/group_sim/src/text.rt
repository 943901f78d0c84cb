//! Texts that are written piece by piece, so that a failed write leaves a prefix of them.
ghost use Rattle.std.specs.Prelude.{decimal};
ghost use Rattle.digits.specs.Digits.{hex_digits, hex_text};
ghost use Rattle.group_sim.specs.Groups.{numbered};
ghost use Rattle.group_sim.specs.Texts.{PutsText};

use digits::hex_digits;
use machine_run::{ByteWriter, WriteFault};

/// Writes a text.
pub fn put<W: ByteWriter>(writer: &mut W, text: &[u8]) -> Result<(), WriteFault>
    ensures { PutsText W.contents W.write_faults writer result text.now }
{
    writer.write_bytes(text)
}

/// Writes a number in decimal digits.
pub fn put_decimal<W: ByteWriter>(writer: &mut W, number: u64) -> Result<(), WriteFault>
    ensures { PutsText W.contents W.write_faults writer result (decimal number) }
{
    if number >= 10 {
        put_decimal(writer, number / 10)?;
    }
    put(writer, &[b'0' + (number % 10) as u8])
}

/// Writes a text and a number in decimal digits.
pub fn put_number<W: ByteWriter>(writer: &mut W, text: &[u8], number: u64) -> Result<(), WriteFault>
    ensures { PutsText W.contents W.write_faults writer result (numbered text.now number) }
{
    put(writer, text)?;
    put_decimal(writer, number)
}

/// Writes a byte in two hexadecimal digits, in capitals.
fn put_byte<W: ByteWriter>(writer: &mut W, byte: u8) -> Result<(), WriteFault>
    ensures { PutsText W.contents W.write_faults writer result (hex_digits byte) }
{
    put(writer, &hex_digits(byte))
}

/// Writes bytes in two hexadecimal digits each, in capitals.
pub fn put_hex<W: ByteWriter>(writer: &mut W, bytes: &[u8]) -> Result<(), WriteFault>
    ensures { PutsText W.contents W.write_faults writer result (hex_text bytes.now) }
{
    for &byte in bytes {
        put_byte(writer, byte)?;
    }
    Ok(())
}
