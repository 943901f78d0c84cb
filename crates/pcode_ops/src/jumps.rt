//! The targets of jumps that loading has let pass.
ghost use Rattle.std.specs.Prelude.{◌≡◌, ◌+◌, ◌<◌, ◌≤◌, ◌^◌, length};
ghost use Rattle.pcode_file.specs.Parts.{word};
ghost use Rattle.pcode_file.specs.declared.file.Proc.{Proc};
ghost use Rattle.pcode_ops.specs.Jumps.{pointed_by, case_of, IsCaseTable};

use crate::decoding::get_word;

/// Returns the place to which the self-relative pointer at `place` leads.
pub(crate) fn pointed_by(segment: &[u8], place: u32) -> u32
    requires inside { place + 1 < length segment.now }
    requires above { word segment.now place ≤ place }
    ensures { result ≡ pointed_by segment.now place }
{
    place - u32::from(get_word(segment, place as usize))
}

/// Returns the target of a case jump on `word`.
pub(crate) fn case_of(segment: &[u8], low: i16, high: i16, table: usize, word: u16) -> u32
    requires size { length segment.now < 2 ^ 16 }
    requires table { (q : Proc) × IsCaseTable segment.now q low high table }
    ensures { result ≡ case_of segment.now low high table word }
{
    let index = word.cast_signed();
    let table = table as u32;
    if index < low {
        return table - 2;
    }
    if high < index {
        return table - 2;
    }
    let entry = (i32::from(index) - i32::from(low)).unsigned_abs();
    pointed_by(segment, table + 2 * entry)
}
