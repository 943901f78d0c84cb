//! What the crates of tests share. It is a crate since they are several, for check time only.
//!
//! It has the segments of small programs, and the code file of a segment.
#![tactic(auto)]

use std::alloc::{AllocError, Global};

/// Writes the letter A: SLDC 65, SRO 3, and UNITWRITE of one byte at word 3 to unit 1.
pub const PRINTS_A: [u8; 28] = [
    0x41, 0xab, 0x03, 0x01, 0xa5, 0x03, 0x00, 0x01, 0x00, 0x00, 0x9e, 0x06, 0xc1, 0x00, 0x02, 0x00,
    0x04, 0x00, 0x06, 0x00, 0x14, 0x00, 0x01, 0x00, 0x02, 0x00, 0x01, 0x01,
];

/// Reads bytes from unit 2 and writes each to unit 1 until one is Q.
pub const READS: [u8; 42] = [
    0x02, 0xa5, 0x03, 0x00, 0x01, 0x00, 0x00, 0x9e, 0x05, 0x01, 0xa5, 0x03, 0x00, 0x01, 0x00, 0x00,
    0x9e, 0x06, 0xea, 0x51, 0xc3, 0xa1, 0xf6, 0xc1, 0x00, 0x00, 0x1a, 0x00, 0x02, 0x00, 0x04, 0x00,
    0x09, 0x00, 0x22, 0x00, 0x01, 0x00, 0x02, 0x00, 0x01, 0x01,
];

/// Appends zeros to `file` until it has `len` bytes.
fn pad(file: &mut Vec<u8>, len: usize) -> Result<(), AllocError> {
    for _ in file.len()..len {
        file.push(0)?;
    }
    Ok(())
}

/// Returns a code file of 1,024 bytes with `segment` as its entry 1, under `name`. Fails if memory
/// runs out.
pub fn code_file(alloc: Global, name: &[u8; 8], segment: &[u8]) -> Result<Vec<u8>, AllocError> {
    let [low, high] = u16::try_from(segment.len()).unwrap_or(0).to_le_bytes();
    let mut file = Vec::new(alloc);
    file.extend_from_slice(&[0, 0, 0, 0, 1, 0, low, high])?;
    pad(&mut file, 72)?;
    file.extend_from_slice(name)?;
    pad(&mut file, 512)?;
    file.extend_from_slice(segment)?;
    pad(&mut file, 1024)?;
    Ok(file)
}
