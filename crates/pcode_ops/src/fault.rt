//! Why a code file is not loaded.
use pcode_file::CodeFile;
use std::fmt;
use thiserror::Error;

/// Why an offset is faulty: the first check that it fails, in the order of the checks. Its text is
/// the refusal's code, with the opcode or the standard procedure if it is of one.
#[derive(Clone, Copy, Debug, PartialEq, Eq, Error)]
pub enum OpFault {
    /// The instruction, or the next one, is not all in its procedure's part.
    #[error("O1")]
    Cut,
    /// An instruction on real numbers.
    #[error("O2")]
    Real,
    /// An instruction on sets.
    #[error("O3")]
    Set,
    /// An instruction on strings, or on constants in the code.
    #[error("O4")]
    Str,
    /// A call into another segment.
    #[error("O5")]
    Segment,
    /// An opcode that is not supported.
    #[error("O6 opcode {0}")]
    Unsupported(u8),
    /// A case jump whose bounds are in the wrong order, or without a jump after them.
    #[error("O7")]
    CaseTable,
    /// A jump out of the procedure's part.
    #[error("O8")]
    JumpRange,
    /// A call of a procedure that does not exist.
    #[error("O9")]
    NoProcedure,
    /// A call of a procedure at a lex level that the call does not allow.
    #[error("O10")]
    CallLevel,
    /// More static links than the procedure's lex level.
    #[error("O11")]
    LinkDepth,
    /// A return that does not fit the procedure.
    #[error("O12")]
    ReturnForm,
    /// A standard procedure that is not supported.
    #[error("O13 procedure {0}")]
    StandardProcedure(u8),
    /// A standard procedure on the heap.
    #[error("O14")]
    Heap,
    /// Out of memory. Memory is allocated before anything is checked.
    #[error("O15")]
    Memory,
    /// Packed elements that do not fit a word: their number or their width is 0, or together they
    /// have more than 16 bits. This is checked right after the type byte.
    #[error("O16")]
    Packing,
}

/// A faulty offset, in bytes from the segment's start, and the first of its faults. With `Memory`
/// the offset is 0.
#[derive(Clone, Copy, Debug, PartialEq, Eq)]
pub struct LoadFault {
    /// The faulty offset.
    pub at: u32,
    /// The first check that it fails.
    pub fault: OpFault,
}

impl fmt::Display for LoadFault {
    fn fmt<W: fmt::Write>(&self, f: &mut fmt::Formatter<W>) -> fmt::Result {
        let at = self.at;
        match self.fault {
            OpFault::Unsupported(opcode) => write!(f, "O6 at {at} opcode {opcode}"),
            OpFault::StandardProcedure(number) => write!(f, "O13 at {at} procedure {number}"),
            fault => write!(f, "{fault} at {at}"),
        }
    }
}

/// A refusal, which gives the file back.
#[derive(Drop)]
pub struct LoadRefused {
    /// Why the file is refused.
    pub fault: LoadFault,
    /// The file that was passed.
    pub file: CodeFile,
}
