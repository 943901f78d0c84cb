//! Files that are read whole.
ghost use Rattle.std.specs.Prelude.{◌≡◌, ◌≢◌, IfErr, IfOk};
ghost use Rattle.machine_run.specs.Files.{HasReadAll, HasReadFront};
ghost use Rattle.machine_run.specs.declared.run.RunIo.TheVariants.{Write};

use crate::run::RunIo;
use crate::streams::{ReadFault, read_some};
use std::alloc::Global;
use std::fs;
use std::io::Read;
use std::rt::Files;

/// The most bytes of a file that is read.
pub const LONGEST_FILE: usize = 67_108_864;

/// Why a file is not read.
#[derive(Clone, Copy, Debug, PartialEq, Eq)]
pub enum FileError {
    /// It can't be opened or read, or is longer than `LONGEST_FILE`.
    Unreadable,
    /// Memory ran out for bytes that were read.
    Memory,
}

/// Returns all bytes that `reader` has left, which are at most 67,108,864. After a refusal the
/// bytes read until then are gone from the reader, and no others. Fails with `Memory` only after it
/// has read at least one byte, and never with `Write`.
///
/// Fails with `Read` exactly if a read fails, which is counted in `faults`, or if there are more
/// than `LONGEST_FILE` bytes.
pub fn read_whole<R: Read>(
    alloc: Global,
    reader: &mut R,
    faults: &mut u64,
) -> Result<Vec<u8>, RunIo>
    ensures whole { IfOk result
        (λ bytes. HasReadAll (R.remaining reader.old) (R.remaining reader.new) bytes.items) }
    ensures front { IfErr result
        (HasReadFront (R.remaining reader.old) (R.remaining reader.new) faults.old faults.new) }
    ensures faultless { IfOk result (λ _. faults.new ≡ faults.old) }
    ensures reads { IfErr result (λ e. e ≢ Write) }
{
    let mut bytes = Vec::new(alloc);
    let mut buffer = [0u8; 4096];
    for _ in 0..=LONGEST_FILE {
        match read_some(reader, faults, &mut buffer) {
            Ok(0) => return Ok(bytes),
            Ok(n) => {
                if n > LONGEST_FILE - bytes.len() {
                    return Err(RunIo::Read);
                }
                if bytes.extend_from_slice(&buffer[..n]).is_err() {
                    return Err(RunIo::Memory);
                }
            }
            Err(ReadFault) => return Err(RunIo::Read),
        }
    }
    // Each pass has added a byte at least.
    unreachable!()
}

/// Reads a file, as `read_whole` does. Fails with `Unreadable` also if it can't be opened.
pub fn read_file<H: Files + AllocGlobal>(rt: &H, path: &str) -> Result<Vec<u8>, FileError> {
    let Ok(mut file) = fs::open(rt, path) else {
        return Err(FileError::Unreadable);
    };
    match read_whole(rt.alloc(), &mut file, &mut 0) {
        Ok(bytes) => Ok(bytes),
        Err(RunIo::Memory) => Err(FileError::Memory),
        Err(RunIo::Read | RunIo::Write) => Err(FileError::Unreadable),
    }
}
