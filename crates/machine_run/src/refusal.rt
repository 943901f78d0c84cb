//! The refusals of the commands of one machine.
use crate::files::FileError;
use crate::run::RunIo;
use pcode_file::FileFault;
use pcode_ops::LoadFault;
use thiserror::Error;

/// Why a command of one machine is refused. The text follows the word `refused`.
#[derive(Clone, Copy, Debug, Error)]
pub enum MachineRefusal {
    /// The file can't be opened or read, or is too long.
    #[error("file")]
    File,
    /// The bytes are no code file.
    #[error(transparent)]
    CodeFile(FileFault),
    /// The code file is no program.
    #[error("{0}")]
    Load(LoadFault),
    /// Memory ran out, or a read or a write failed.
    #[error(transparent)]
    Run(RunIo),
}

impl From<FileError> for MachineRefusal {
    ghost use Rattle.std.specs.Prelude.{◌≡◌};
    ghost use Rattle.machine_run.specs.declared.refusal.MachineRefusal.TheVariants.{File, Run};
    ghost use Rattle.machine_run.specs.declared.files.FileError.TheVariants as file;
    ghost use Rattle.machine_run.specs.declared.run.RunIo.TheVariants as run;

    ghost from_gives = { λ error r. (error ≡ file.Unreadable → r ≡ File)
        × (error ≡ file.Memory → r ≡ Run run.Memory) };

    fn from(error: FileError) -> MachineRefusal {
        match error {
            FileError::Unreadable => MachineRefusal::File,
            FileError::Memory => MachineRefusal::Run(RunIo::Memory),
        }
    }
}
