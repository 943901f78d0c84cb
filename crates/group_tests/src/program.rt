//! The programs that the nodes of these tests run.
use pcode_file::CodeFile;
use pcode_ops::Program;
use std::alloc::Global;
use std::test::Fail;
use test_programs::{READS, code_file};

/// Writes 300 zero bytes: SLDC 1, LAO 3, SLDC 0, LDCI 300, SLDC 0, SLDC 0, CSP 6, RBP 0.
pub const WRITES_300: [u8; 28] = [
    0x01, 0xa5, 0x03, 0x00, 0xc7, 0x2c, 0x01, 0x00, 0x00, 0x9e, 0x06, 0xc1, 0x00, 0x00, 0x2c, 0x01,
    0x04, 0x00, 0x07, 0x00, 0x14, 0x00, 0x01, 0x00, 0x02, 0x00, 0x01, 0x01,
];

/// Returns the program of the segment.
pub fn program(alloc: Global, segment: &[u8]) -> Result<Program, Fail> {
    let bytes = code_file(alloc, b"        ", segment)?;
    let file = CodeFile::read(alloc, bytes.as_slice())
        .ok()
        .ok_or("no file")?;
    let program = Program::check(alloc, file).ok().ok_or("no program")?;
    Ok(program)
}

/// Returns the program that reads bytes and writes each of them.
pub fn reading_program(alloc: Global) -> Result<Program, Fail> {
    program(alloc, &READS)
}
