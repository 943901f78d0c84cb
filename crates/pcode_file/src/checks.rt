//! The checks of a code file, in their order. None of them allocates.
//!
//! Block 0 is the file's first 512 bytes and has 16 entries. Of entry `k` the word at `4 * k` is
//! the block at which the segment begins, the word at `4 * k + 2` the segment's length in bytes,
//! and the word at `192 + 2 * k` its kind.
//!
//! The segment's last word has its number in the low byte and the count of its procedures in the
//! high byte. The pointer of procedure `i` lies `2 * i` bytes below that word. It says how far
//! below itself the procedure's attribute table lies. The table's highest word has the procedure's
//! number and lex level. Below it lie the pointers to the first instruction and to the code that
//! leaves, and the sizes of the parameters and of the data in bytes.
ghost use Rattle.std.specs.Prelude.{◌≡◌, ◌+◌, ◌*◌, ◌-◌, ◌^◌, ◌<◌, ◌≤◌, length, IfOk, IfSome, slice_range, Some};
ghost use Rattle.pcode_file.specs.declared.layout.TheConstants.{BLOCK_BYTES, ENTRIES};
ghost use Rattle.pcode_file.specs.Parts.{word};
ghost use Rattle.pcode_file.specs.Checks.{seen, used_from, entry_of, segment_of, procedure_count, table_of, table_at, past_table, low_of, pointer_of, proc_at, first_of};

use crate::fault::FileFault;
use crate::file::Proc;
use crate::layout::{BLOCK_BYTES, ENTRIES, LAST_LEVEL};
use byteorder::{ByteOrder, LittleEndian};

/// Returns the word of 16 bits at `at`, its low byte first.
fn word_at(bytes: &[u8], at: usize) -> u16
    requires { at + 1 < length bytes.now }
    ensures { result ≡ word bytes.now at }
{
    LittleEndian::read_u16(&bytes[at..])
}

/// Returns the first entry of block 0 that is in use, from entry `from` on. An entry is in use if
/// it has a length.
#[tactic(auto, using(crate::proofs::Results::one_less), unfolding(crate::specs::Checks::used_from))]
fn used_from(bytes: &[u8], from: usize) -> Option<usize>
    requires long { BLOCK_BYTES ≤ length bytes.now }
    requires from { from ≤ ENTRIES }
    ensures value { result ≡ used_from bytes.now from (ENTRIES - from) }
    ensures within { IfSome result (λ k. (k < ENTRIES) × (0 < word bytes.now (4 * k + 2))) }
{
    for k in from..ENTRIES {
        if word_at(bytes, 4 * k + 2) != 0 {
            return Some(k);
        }
    }
    None
}

/// Returns the one entry of block 0 that is in use. Fails with `NoSegment` if there is none, and
/// with `SeveralSegments` if there are more.
#[tactic(auto, unfolding(crate::specs::Checks::entry_of))]
fn entry(bytes: &[u8]) -> Result<usize, FileFault>
    requires { BLOCK_BYTES ≤ length bytes.now }
    ensures value { result ≡ entry_of bytes.now }
    ensures within { IfOk result (λ k. (k < ENTRIES) × (0 < word bytes.now (4 * k + 2))) }
{
    match used_from(bytes, 0) {
        None => Err(FileFault::NoSegment),
        Some(k) => match used_from(bytes, k + 1) {
            None => Ok(k),
            Some(_) => Err(FileFault::SeveralSegments),
        },
    }
}

/// Returns the `len` bytes from `start` on.
fn cut(bytes: &[u8], start: usize, len: usize) -> &[u8]
    requires { start + len ≤ length bytes.now }
    ensures value { result.now ≡ slice_range bytes.now start (start + len) }
    ensures size { length result.now ≡ len }
{
    &bytes[start..start + len]
}

/// Returns the entry in use and the segment's bytes, or the first of checks F1 to F5 that fails.
/// F10 comes last, if the length is odd.
#[tactic(auto, unfolding(crate::specs::Checks::segment_of))]
pub(crate) fn segment(bytes: &[u8]) -> Result<(usize, &[u8]), FileFault>
    ensures value { seen (λ x. (x.0, x.1.now)) result ≡ segment_of bytes.now }
    ensures within { IfOk result
        (λ x. (x.0 < ENTRIES) × (2 ≤ length x.1.now) × (length x.1.now < 2 ^ 16)
        × (BLOCK_BYTES ≤ length bytes.now)) }
{
    if bytes.len() < BLOCK_BYTES {
        return Err(FileFault::Short);
    }
    let k = entry(bytes)?;
    if word_at(bytes, 192 + 2 * k) != 0 {
        return Err(FileFault::Unlinked);
    }
    let start = BLOCK_BYTES * usize::from(word_at(bytes, 4 * k));
    let len = usize::from(word_at(bytes, 4 * k + 2));
    if start == 0 || bytes.len() < start + len {
        return Err(FileFault::SegmentRange);
    }
    if len % 2 != 0 {
        return Err(FileFault::OddSize(0));
    }
    Ok((k, cut(bytes, start, len)))
}

/// Returns the number of procedures that the segment has. Fails with `DictionaryRange` if it is 0
/// or the dictionary is longer than the segment.
pub(crate) fn count(segment: &[u8]) -> Result<u8, FileFault>
    requires { 2 ≤ length segment.now }
    ensures value { result ≡ procedure_count segment.now }
    ensures within { IfOk result (λ n. (0 < n) × (2 + 2 * n ≤ length segment.now)) }
{
    let n = segment[segment.len() - 1];
    if n == 0 || segment.len() < 2 + 2 * usize::from(n) {
        return Err(FileFault::DictionaryRange);
    }
    Ok(n)
}

/// Returns the place of procedure `i`'s attribute table, by its pointer in the dictionary; 0 if
/// that leads below the segment, where no table can lie.
fn table(segment: &[u8], i: u8) -> usize
    requires { 2 + 2 * i ≤ length segment.now }
    ensures { result ≡ table_of segment.now i }
{
    let place = segment.len() - 2 - 2 * usize::from(i);
    place.saturating_sub(usize::from(word_at(segment, place)))
}

/// Checks the attribute table of procedure `i` of `n`. Returns the table's place.
#[tactic(auto, unfolding(crate::specs::Checks::table_at))]
fn table_at(segment: &[u8], n: u8, i: u8) -> Result<usize, FileFault>
    requires dictionary { 2 + 2 * n ≤ length segment.now }
    requires i { i ≤ n }
    ensures value { result ≡ table_at segment.now n i }
    ensures within { IfOk result (λ t. (8 ≤ t) × (t + 4 + 2 * n ≤ length segment.now)) }
{
    let at = table(segment, i);
    if at % 2 != 0 || at < 8 || segment.len() - 2 - 2 * usize::from(n) < at + 2 {
        return Err(FileFault::AttributeRange(i));
    }
    if segment[at] == 0 {
        return Err(FileFault::Native(i));
    }
    if segment[at] != i {
        return Err(FileFault::AttributeRange(i));
    }
    let level = segment[at + 1];
    if i == 1 {
        if level != 0 {
            return Err(FileFault::Level(i));
        }
    } else if level == 0 || level > LAST_LEVEL {
        return Err(FileFault::Level(i));
    }
    if word_at(segment, at - 6) % 2 != 0 || word_at(segment, at - 8) % 2 != 0 {
        return Err(FileFault::OddSize(i));
    }
    Ok(at)
}

/// Returns the place after `table`, if the table lies below `at`, and 0 otherwise.
fn past_table(table: usize, at: usize) -> usize
    requires { at < 2 ^ 16 }
    ensures value { result ≡ past_table table at }
    ensures within { result ≤ at + 1 }
{
    if table < at { table + 2 } else { 0 }
}

/// Returns the place at which the part of the procedure with its table at `at` begins: after the
/// next table below, or at 0. It reads the dictionary again, so that no list of tables is kept.
#[tactic(auto, using(crate::proofs::Results::one_less))]
fn low(segment: &[u8], n: u8, at: usize) -> usize
    requires dictionary { 2 + 2 * n ≤ length segment.now }
    requires at { at < 2 ^ 16 }
    ensures value { result ≡ low_of segment.now n at }
    ensures within { result ≤ at + 1 }
{
    let mut low = 0;
    for k in 0..n {
        low = low.max(past_table(table(segment, k + 1), at));
    }
    low
}

/// Returns the place to which the self-relative pointer at `place` leads, if that lies from `low`
/// up to `end`.
fn pointer(segment: &[u8], place: usize, low: usize, end: usize) -> Option<usize>
    requires { place + 1 < length segment.now }
    ensures value { result ≡ pointer_of segment.now place low end }
    ensures within { IfSome result (λ x. x < end) }
{
    let back = usize::from(word_at(segment, place));
    if place < back {
        return None;
    }
    if place - back < low {
        return None;
    }
    if end <= place - back {
        return None;
    }
    Some(place - back)
}

/// Checks procedure `i` of `n`, its table and its part. Returns the procedure.
#[tactic(auto, unfolding(crate::specs::Checks::proc_at))]
pub(crate) fn proc_at(segment: &[u8], n: u8, i: u8) -> Result<Proc, FileFault>
    requires dictionary { 2 + 2 * n ≤ length segment.now }
    requires size { length segment.now < 2 ^ 16 }
    requires i { i ≤ n }
    ensures { result ≡ proc_at segment.now n i }
{
    let at = table_at(segment, n, i)?;
    let low = low(segment, n, at);
    if at - 8 < low {
        return Err(FileFault::AttributeRange(i));
    }
    let enter = pointer(segment, at - 2, low, at - 8).ok_or(FileFault::AttributeRange(i))?;
    let exit = pointer(segment, at - 4, low, at - 8).ok_or(FileFault::AttributeRange(i))?;
    Ok(Proc {
        number: i,
        level: segment[at + 1],
        enter: enter as u32,
        exit: exit as u32,
        jtab: at as u32,
        low: low as u32,
        params: word_at(segment, at - 6) / 2,
        vars: word_at(segment, at - 8) / 2,
    })
}

/// Checks the attribute tables of all procedures.
#[tactic(auto, using(crate::proofs::Results::one_less), unfolding(crate::specs::Checks::first_of))]
pub(crate) fn check_tables(segment: &[u8], n: u8) -> Result<(), FileFault>
    requires { 2 + 2 * n ≤ length segment.now }
    ensures { result ≡ first_of (table_at segment.now n) 1 n }
{
    for k in 0..n {
        table_at(segment, n, k + 1)?;
    }
    Ok(())
}

/// Checks the parts of all procedures. It keeps none, so that a fault is found before memory is
/// allocated.
#[tactic(auto, using(crate::proofs::Results::one_less), unfolding(crate::specs::Checks::first_of))]
pub(crate) fn check_procedures(segment: &[u8], n: u8) -> Result<(), FileFault>
    requires dictionary { 2 + 2 * n ≤ length segment.now }
    requires size { length segment.now < 2 ^ 16 }
    ensures { result ≡ first_of (proc_at segment.now n) 1 n }
{
    for k in 0..n {
        proc_at(segment, n, k + 1)?;
    }
    Ok(())
}
