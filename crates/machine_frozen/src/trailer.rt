//! What a frozen code file has behind its segment.
ghost use Rattle.std.specs.Prelude.{◌≡◌, ◌+◌, ◌<◌, ◌≤◌, ◌↔◌, ◌++◌, IfErr, IfOk, IsTrue, codes, drop, length};
ghost use Rattle.byteorder.specs.Endian.{little_number};
ghost use Rattle.machine_frozen.specs.declared.refusal.FrozenRefusal.TheVariants as refusal;
ghost use Rattle.machine_frozen.specs.Refusals.{IsBytesRefusal};
ghost use Rattle.machine_frozen.specs.Trailer.{HasTrailer};

use crate::refusal::FrozenRefusal;
use byteorder::{ByteOrder, LittleEndian};

/// The length of the footer, which ends the file.
pub(crate) const FOOTER_BYTES: usize = 38;

/// The length of a row.
pub(crate) const ROW_BYTES: usize = 10;

/// What the trailer of a frozen code file says.
#[derive(Clone, Copy)]
pub(crate) struct Trailer<'a> {
    /// The rows, by which a place of the file is one of the original.
    pub(crate) rows: &'a [u8],
    /// The original's code file.
    pub(crate) original: &'a [u8],
    /// How many bytes the original had read.
    pub(crate) read: u64,
    /// How many bytes the original had written.
    pub(crate) wrote: u64,
}

/// Returns the number of four bytes at `at`, its low byte first.
fn four_bytes_at(bytes: &[u8], at: usize) -> u32
    requires { at + 4 ≤ length bytes.now }
    ensures { result ≡ little_number 4 (drop at bytes.now) }
{
    let (_front, rest) = bytes.split_at(at);
    LittleEndian::read_u32(rest)
}

/// Returns the number of eight bytes at `at`, its low byte first.
fn eight_bytes_at(bytes: &[u8], at: usize) -> u64
    requires { at + 8 ≤ length bytes.now }
    ensures { result ≡ little_number 8 (drop at bytes.now) }
{
    let (_front, rest) = bytes.split_at(at);
    LittleEndian::read_u64(rest)
}

/// Returns true exactly if a footer ends in the mark of frozen files.
fn is_marked(footer: &[u8]) -> bool
    requires { 28 ≤ length footer.now }
    ensures { IsTrue result ↔ (drop 28 footer.now ≡ codes "PGFROZEN1\n") }
{
    let (_front, mark) = footer.split_at(28);
    mark == b"PGFROZEN1\n".as_slice()
}

/// Returns the file's rest and its last bytes, as many as `size`. Fails with `Damaged` if it has
/// fewer.
fn cut(bytes: &[u8], size: usize) -> Result<(&[u8], &[u8]), FrozenRefusal>
    ensures ok { IfOk result
        (λ r. (bytes.now ≡ r.0.now ++ r.1.now) × (length r.1.now ≡ size)) }
    ensures err { IfErr result (λ e. (e ≡ refusal.Damaged) × (length bytes.now < size)) }
{
    if bytes.len() < size {
        return Err(FrozenRefusal::Damaged);
    }
    Ok(bytes.split_at(bytes.len() - size))
}

/// Returns what the trailer says. Fails with `NotFrozen` if the file does not end in a footer, and
/// with `Damaged` if it is too short for the original and the rows.
pub(crate) fn trailer_of(bytes: &[u8]) -> Result<Trailer<'_>, FrozenRefusal>
    ensures ok { IfOk result
        (λ t. HasTrailer bytes.now t.rows.now t.original.now t.read t.wrote) }
    ensures err { IfErr result (IsBytesRefusal bytes.now) }
{
    if bytes.len() < FOOTER_BYTES {
        return Err(FrozenRefusal::NotFrozen);
    }
    let (body, footer) = cut(bytes, FOOTER_BYTES)?;
    if !is_marked(footer) {
        return Err(FrozenRefusal::NotFrozen);
    }
    let read = eight_bytes_at(footer, 0);
    let wrote = eight_bytes_at(footer, 8);
    let rows_bytes = ROW_BYTES * four_bytes_at(footer, 20) as usize;
    let original_bytes = four_bytes_at(footer, 24) as usize;
    let (before, original) = cut(body, original_bytes)?;
    let (_front, rows) = cut(before, rows_bytes)?;
    Ok(Trailer {
        rows,
        original,
        read,
        wrote,
    })
}
