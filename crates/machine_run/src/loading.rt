//! From the bytes of a code file to a program.
ghost use Rattle.std.specs.Prelude.{IfOk, IfErr};
ghost use Rattle.pcode_file.specs.InFile.{InFile};
ghost use Rattle.pcode_ops.specs.Reach.{IsLoadable};
ghost use Rattle.machine_run.specs.Files.{IsLoadRefusal};

use crate::refusal::MachineRefusal;
use pcode_file::CodeFile;
use pcode_ops::Program;
use std::alloc::Global;

/// Returns the program of `bytes` exactly if they are a code file with no faulty reached offset,
/// memory aside. Else fails with the first check of the file that fails, or with the least faulty
/// reached offset and its first fault.
pub fn load(alloc: Global, bytes: &[u8]) -> Result<Program, MachineRefusal>
    ensures ok { IfOk result (λ program. InFile bytes.now program × IsLoadable program) }
    ensures err { IfErr result (IsLoadRefusal bytes.now) }
{
    let file = CodeFile::read(alloc, bytes).map_err(MachineRefusal::CodeFile)?;
    match Program::check(alloc, file) {
        Ok(program) => Ok(program),
        Err(refused) => Err(MachineRefusal::Load(refused.fault)),
    }
}
