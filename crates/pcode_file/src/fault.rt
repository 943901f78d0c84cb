//! Why a code file is refused.

use thiserror::Error;

/// The first check that a file fails, in the order of the checks. Its text is the refusal's code,
/// with the procedure if it is of one: `F3`, `F7 procedure 2`.
#[derive(Clone, Copy, Debug, PartialEq, Eq, Error)]
pub enum FileFault {
    /// The file is shorter than block 0, which has 512 bytes.
    #[error("F1")]
    Short,
    /// No entry of block 0 has a length.
    #[error("F2")]
    NoSegment,
    /// More than one entry of block 0 has a length.
    #[error("F3")]
    SeveralSegments,
    /// The segment's kind is not linked, which is 0.
    #[error("F4")]
    Unlinked,
    /// The segment begins in block 0 or ends after the file.
    #[error("F5")]
    SegmentRange,
    /// The segment has no procedures, or more than its dictionary can hold.
    #[error("F6")]
    DictionaryRange,
    /// A pointer or a number in this procedure's attribute table is out of range.
    #[error("F7 procedure {0}")]
    AttributeRange(u8),
    /// This procedure is native code.
    #[error("F8 procedure {0}")]
    Native(u8),
    /// This procedure's lex level is out of range.
    #[error("F9 procedure {0}")]
    Level(u8),
    /// The parameters or the data of this procedure have an odd number of bytes. For procedure 0:
    /// the segment's length is odd.
    #[error("F10 procedure {0}")]
    OddSize(u8),
    /// Out of memory. All checks have passed.
    #[error("F11")]
    Memory,
}
