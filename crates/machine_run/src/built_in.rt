//! The built-in program.
use crate::commands::run_bytes;
use crate::refusal::MachineRefusal;
use crate::run::Finish;
use crate::streams::Counting;
use std::alloc::Global;
use std::io::Write;

/// The segment of the built-in program, which writes one letter. It has 28 bytes, from block 1 of
/// its code file on.
static SEGMENT: [u8; 28] = [
    0x41, 0xab, 0x03, 0x01, 0xa5, 0x03, 0x00, 0x01, 0x00, 0x00, 0x9e, 0x06, 0xc1, 0x00, 0x02, 0x00,
    0x04, 0x00, 0x06, 0x00, 0x14, 0x00, 0x01, 0x00, 0x02, 0x00, 0x01, 0x01,
];

/// Returns the built-in code file: block 0, then the segment.
fn built_in() -> [u8; 540] {
    let mut bytes = [0u8; 540];
    bytes[4] = 1;
    bytes[6] = 28;
    bytes[512..].copy_from_slice(&SEGMENT);
    bytes
}

/// Runs the built-in program on an empty input, for at most `steps` steps.
pub fn run_built_in<W: Write>(
    alloc: Global,
    steps: u32,
    writer: &mut W,
) -> Result<Finish, MachineRefusal> {
    let nothing: &[u8] = &[];
    let mut reader = Counting::new(nothing);
    let mut writer = Counting::new(writer);
    run_bytes(alloc, &built_in(), steps, &mut reader, &mut writer)
}
