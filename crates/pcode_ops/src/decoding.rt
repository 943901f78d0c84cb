//! Decodes instructions.
ghost use Rattle.std.specs.Prelude.{◌≡◌, ℕ, ◌+◌, ◌^◌, ◌<◌, ◌≤◌, length, IfOk, Ok};
ghost use Rattle.pcode_ops.specs.declared.instr.Instr.{Instr};
ghost use Rattle.pcode_file.specs.Parts.{word};
ghost use Rattle.pcode_ops.specs.At.{At, cases};
ghost use Rattle.pcode_ops.specs.Walks.{IsTableIn};
ghost use Rattle.pcode_ops.specs.Decoding.{EndsWithin, byte_at, word_at, big_at, operands_at, standard_of, packed_of, signed_word, case_jump_at, finished_at, instr_of, instr_at};

use crate::fault::OpFault;
use crate::instr::{Instr, StandardProcedure};
use crate::opcodes::{Operands, Row, make_row, refusal};

/// Returns the byte at `at`. Fails with `Cut` if the code has ended.
fn byte(code: &[u8], at: usize) -> Result<u8, OpFault>
    ensures value { result ≡ byte_at code.now at }
    ensures within { IfOk result (λ _. at < length code.now) }
{
    match code.get(at) {
        Some(b) => Ok(*b),
        None => Err(OpFault::Cut),
    }
}

/// Returns the word at `at`, its low byte first.
pub(crate) fn get_word(code: &[u8], at: usize) -> u16
    requires { at + 1 < length code.now }
    ensures { result ≡ word code.now at }
{
    u16::from(code[at]) + 256 * u16::from(code[at + 1])
}

/// Returns the operand of two bytes at `at`, the low one first.
fn word_at(code: &[u8], at: usize) -> Result<u16, OpFault>
    ensures value { result ≡ word_at code.now at }
    ensures within { IfOk result (λ _. at + 1 < length code.now) }
{
    let low = byte(code, at)?;
    let high = byte(code, at + 1)?;
    Ok(u16::from(low) + 256 * u16::from(high))
}

/// Returns the operand of one or two bytes at `at`, and the offset after it.
fn big(code: &[u8], at: usize) -> Result<(u16, usize), OpFault>
    ensures value { result ≡ big_at code.now at }
    ensures within { EndsWithin code.now result }
{
    let first = byte(code, at)?;
    if first < 128 {
        return Ok((u16::from(first), at + 1));
    }
    let second = byte(code, at + 1)?;
    Ok((u16::from(first - 128) * 256 + u16::from(second), at + 2))
}

/// Returns the call of standard procedure `number`, or its refusal.
fn standard(next: usize, number: u8) -> Result<(Instr, usize), OpFault>
    ensures value { result ≡ standard_of next number }
    ensures within { IfOk result (λ r. r.1 ≡ next) }
{
    match number {
        0 => Ok((Instr::Csp(StandardProcedure::IoCheck), next)),
        5 => Ok((Instr::Csp(StandardProcedure::UnitRead), next)),
        6 => Ok((Instr::Csp(StandardProcedure::UnitWrite), next)),
        34 => Ok((Instr::Csp(StandardProcedure::IoResult), next)),
        39 => Ok((Instr::Csp(StandardProcedure::Halt), next)),
        1 | 32 | 33 => Err(OpFault::Heap),
        _ => Err(OpFault::StandardProcedure(number)),
    }
}

/// Returns IXP with `elements` elements of `width` bits in a word. Fails with `Packing` if they do
/// not fit.
fn packed(next: usize, elements: u8, width: u8) -> Result<(Instr, usize), OpFault>
    ensures value { result ≡ packed_of next elements width }
    ensures within { IfOk result (λ r. r.1 ≡ next) }
{
    if elements >= 1 && width >= 1 && u16::from(elements) * u16::from(width) <= 16 {
        Ok((Instr::Ixp(elements, width), next))
    } else {
        Err(OpFault::Packing)
    }
}

/// Returns the number of entries of a case table from `low` to `high`, 0 if `low` is above `high`.
pub(crate) fn cases(low: i16, high: i16) -> u32
    ensures value { result ≡ cases low high }
    ensures small { result ≤ 2 ^ 16 }
{
    if high < low {
        return 0;
    }
    (i32::from(high) - i32::from(low) + 1).unsigned_abs()
}

/// Returns the signed word at `at`.
fn signed_word(code: &[u8], at: usize) -> i16
    requires { at + 1 < length code.now }
    ensures { result ≡ signed_word code.now at }
{
    get_word(code, at).cast_signed()
}

/// Returns the case jump whose W1 is at the even offset `at`, and the offset after its table.
fn case_jump(code: &[u8], at: usize) -> Result<(Instr, usize), OpFault>
    ensures value { result ≡ case_jump_at code.now at }
    ensures within { EndsWithin code.now result }
{
    if code.len() < 6 || code.len() - 6 < at {
        return Err(OpFault::Cut);
    }
    let low = signed_word(code, at);
    let high = signed_word(code, at + 2);
    let count = cases(low, high) as usize;
    if count == 0 {
        return Err(OpFault::CaseTable);
    }
    if code[at + 4] != 185 {
        return Err(OpFault::CaseTable);
    }
    let table = at + 6;
    let next = table + 2 * count;
    if code.len() < next {
        return Err(OpFault::Cut);
    }
    let sb = code[at + 5].cast_signed();
    Ok((
        Instr::Xjp {
            low,
            high,
            sb,
            table,
        },
        next,
    ))
}

/// Returns the operands after the opcode at `at`, each 0 if the code does not have it.
fn operands(code: &[u8], at: usize) -> Operands
    requires { at < length code.now }
    ensures { result ≡ operands_at code.now at }
{
    Operands {
        byte: byte(code, at + 1).unwrap_or(0),
        big: big(code, at + 1).map_or(0, |found| found.0),
        word: word_at(code, at + 1).unwrap_or(0),
        offset: big(code, at + 2).map_or(0, |found| found.0),
    }
}

/// Returns the instruction of `row`, whose opcode is at `at`, and the offset after it. Fails if
/// operands are cut off or are not what they have to be.
fn finish(code: &[u8], at: usize, opcode: u8, row: Row) -> Result<(Instr, usize), OpFault>
    requires { at < length code.now }
    ensures value { result ≡ finished_at code.now at opcode row }
    ensures within { EndsWithin code.now result }
{
    let first = at + 1;
    match row {
        Row::Alone(instr) => Ok((instr, first)),
        Row::Byte(instr) => {
            byte(code, first)?;
            Ok((instr, at + 2))
        }
        Row::Big(instr) => {
            let (_, next) = big(code, first)?;
            Ok((instr, next))
        }
        Row::Word(instr) => {
            word_at(code, first)?;
            Ok((instr, at + 3))
        }
        Row::Levels(instr) => {
            byte(code, first)?;
            let (_, next) = big(code, at + 2)?;
            Ok((instr, next))
        }
        Row::Typed(instr) => {
            if byte(code, first)? != 6 {
                return Err(OpFault::Unsupported(opcode));
            }
            Ok((instr, at + 2))
        }
        Row::Packed => {
            let elements = byte(code, first)?;
            packed(at + 3, elements, byte(code, at + 2)?)
        }
        Row::Standard => standard(at + 2, byte(code, first)?),
        Row::CaseJump => case_jump(code, first + first % 2),
    }
}

/// Returns the instruction of the opcode at `at`, and the offset after it.
fn instruction(code: &[u8], at: usize, opcode: u8) -> Result<(Instr, usize), OpFault>
    requires { at < length code.now }
    ensures value { result ≡ instr_of code.now at opcode }
    ensures within { EndsWithin code.now result }
{
    match make_row(opcode, operands(code, at)) {
        Some(row) => finish(code, at, opcode, row),
        None => Err(refusal(opcode)),
    }
}

/// Returns the instruction at offset `at` exactly if `code` has one there, and the offset after it,
/// at most the code's length. A case table lies in the code, with room for a UJP before it.
/// Otherwise fails with the first check that fails.
pub fn decode(code: &[u8], at: usize) -> Result<(Instr, usize), OpFault>
    // What is decoded is in the code.
    ensures found { IfOk result (λ r. At code.now at r.0 r.1) }
    // What is in the code is decoded.
    ensures only { (instr : Instr) (j : ℕ) → At code.now at instr j → result ≡ Ok (instr, j) }
    // The fault is the first check that fails.
    ensures exact { result ≡ instr_at code.now at }
    ensures within { EndsWithin code.now result }
    ensures table { IfOk result (λ r. IsTableIn (length code.now) r.0) }
{
    let opcode = byte(code, at)?;
    instruction(code, at, opcode)
}
