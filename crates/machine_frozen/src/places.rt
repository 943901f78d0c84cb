//! Places of a frozen file, and those of its original. No contract says which these are: what is
//! made of them is checked.
use crate::trailer::ROW_BYTES;
use byteorder::{ByteOrder, LittleEndian};

/// A place: a procedure, by its number, and an offset in bytes from the segment's start.
#[derive(Clone, Copy, PartialEq, Eq)]
pub(crate) struct Place {
    pub(crate) procedure: u8,
    pub(crate) offset: u32,
}

/// A row: the offsets of procedure `other` of the frozen file from `from` up to `to` are those of
/// `procedure` of the original from `back` on.
#[derive(Clone, Copy)]
struct Row {
    other: u32,
    from: u32,
    to: u32,
    procedure: u8,
    back: u32,
}

/// Returns the word at `at`, its low byte first, and 0 if there is none.
pub(crate) fn word_at(bytes: &[u8], at: usize) -> u16 {
    if bytes.len() < 2 || bytes.len() - 2 < at {
        return 0;
    }
    LittleEndian::read_u16(&bytes[at..])
}

/// Returns the row of that index.
fn row_of(rows: &[u8], index: usize) -> Row {
    let at = index.saturating_mul(ROW_BYTES);
    let field = |k: usize| u32::from(word_at(rows, at.saturating_add(2 * k)));
    Row {
        other: field(0),
        from: field(1),
        to: field(2),
        procedure: field(3).min(255) as u8,
        back: field(4),
    }
}

/// Returns the procedure of the original of which `other` is a copy.
pub(crate) fn procedure_by(rows: &[u8], other: u8) -> u8 {
    for index in 0..rows.len() / ROW_BYTES {
        let row = row_of(rows, index);
        if row.other == u32::from(other) {
            return row.procedure;
        }
    }
    other
}

/// Returns the place of the original that a place of the frozen file is: by the first row that
/// fits, or the same one if none does.
pub(crate) fn place_by(rows: &[u8], other: Place) -> Place {
    for index in 0..rows.len() / ROW_BYTES {
        let row = row_of(rows, index);
        if row.other == u32::from(other.procedure)
            && row.from <= other.offset
            && other.offset < row.to
        {
            return Place {
                procedure: row.procedure,
                offset: (other.offset - row.from).saturating_add(row.back),
            };
        }
    }
    other
}
