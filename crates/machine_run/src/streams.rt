//! Readers of single bytes and writers of bytes, which count their faults.
//!
//! The contracts of std's `Read` and `Write` cannot say that a call failed, so no clause can say
//! that a fault was really met. These two traits count faults. The wrapper `Counting` makes one of
//! any `Read` or `Write`. Private functions with exact contracts say what the answer of one `read`
//! or `write` means. Only the lines of `read_some` and `write_some` show that a call was made: a
//! body that counts a fault and fails at once meets their contracts.
ghost use Rattle.std.specs.Prelude.{◌≡◌, ℕ, List, [], ◌∷◌, ◌<◌, ◌≤◌, length, IfOk, Option, IsNone, MatchResult};
ghost use Rattle.std.specs.Option.{option_to_list};
ghost use Rattle.std.specs.Io.KnownBytes.{Keeps, Appends, Consumes, IsAtEnd, ReadConsumes, WriteAppends};
ghost use Rattle.std.specs.IoError.{error_kind};
ghost use Rattle.base.specs.Faults.{CountsFault, HasRisen};
ghost use Rattle.machine_run.specs.Streams.{WritesPart, byte_found_of, bytes_read_of, bytes_written_of, is_interrupted};

use base::count_fault;
use std::io::{self, ErrorKind, Read, Write};

/// A read failed.
#[derive(Clone, Copy, Debug, PartialEq, Eq)]
pub struct ReadFault;

/// A write failed, or took nothing.
#[derive(Clone, Copy, Debug, PartialEq, Eq)]
pub struct WriteFault;

/// A source of bytes, one after another.
pub trait ByteReader {
    /// The bytes that it has left, where they are known.
    ghost remaining: { Self → Option (List ℕ) };

    /// The number of its reads that failed.
    ghost read_faults: { Self → ℕ };

    /// Reads the next byte, and returns `None` only at the end of the bytes. A call that fails
    /// takes no byte and counts one more fault. No other call counts one.
    fn read_byte(&mut self) -> Result<Option<u8>, ReadFault>
        ensures bytes { MatchResult result
            (λ found. Consumes (remaining self.old) (remaining self.new) (option_to_list found)
            × (IsNone found → IsAtEnd (remaining self.new)))
            (λ _. Consumes (remaining self.old) (remaining self.new) []) }
        ensures faults { MatchResult result
            (λ _. read_faults self.new ≡ read_faults self.old)
            (λ _. HasRisen (read_faults self.old) (read_faults self.new)) };
}

/// A sink of bytes, one after another.
pub trait ByteWriter {
    /// The bytes that it holds, where they are known.
    ghost contents: { Self → Option (List ℕ) };

    /// The number of its writes that failed or took nothing.
    ghost write_faults: { Self → ℕ };

    /// Appends `bytes` to what the writer holds. A call that fails appends none or some first ones
    /// of them, but never all (`WritesPart`), and counts one more fault. No other call counts one.
    ///
    /// If the stream takes none of some bytes, that is a failed write. A call without bytes does
    /// not fail.
    fn write_bytes(&mut self, bytes: &[u8]) -> Result<(), WriteFault>
        ensures bytes { MatchResult result
            (λ _. Appends (contents self.old) (contents self.new) bytes.now)
            (λ _. WritesPart (contents self.old) (contents self.new) bytes.now) }
        ensures faults { CountsFault (write_faults self.old) (write_faults self.new) result };

    /// Appends `byte` to what the writer holds. A call that fails appends nothing and counts one
    /// more fault. No other call counts one.
    final fn write_byte(&mut self, byte: u8) -> Result<(), WriteFault>
        ensures bytes { MatchResult result
            (λ _. Appends (contents self.old) (contents self.new) (byte ∷ []))
            (λ _. Keeps (contents self.old) (contents self.new)) }
        ensures faults { MatchResult result
            (λ _. write_faults self.new ≡ write_faults self.old)
            (λ _. HasRisen (write_faults self.old) (write_faults self.new)) }
    {
        self.write_bytes(&[byte])
    }
}

/// A reader or a writer, and the number of its faults, up to `u64::MAX`. It is a `ByteReader` if
/// `T` is a `Read`, and a `ByteWriter` if `T` is a `Write`.
#[derive(Drop)]
pub struct Counting<T> {
    pub inner: T,
    pub faults: u64,
}

impl<T> Counting<T> {
    /// Wraps a reader or a writer, with no fault counted.
    pub fn new(inner: T) -> Counting<T>
        ensures inner { result.inner ≡ inner }
        ensures faults { result.faults ≡ 0 }
    {
        Counting { inner, faults: 0 }
    }
}

/// Returns true if a signal interrupted a call that returned this error.
fn was_interrupted(fault: &io::Error) -> bool
    ensures { result ≡ is_interrupted (error_kind fault.now) }
{
    fault.kind() == ErrorKind::Interrupted
}

/// What the answer of a call of `read` means: how many bytes it has read, or that it failed. `None`
/// means that a signal interrupted it, so that it is made again.
fn bytes_read(answer: io::Result<usize>) -> Option<Result<usize, ReadFault>>
    ensures { result ≡ bytes_read_of answer }
{
    match answer {
        Ok(n) => Some(Ok(n)),
        Err(fault) if was_interrupted(&fault) => None,
        Err(_) => Some(Err(ReadFault)),
    }
}

/// What the answer of a call of `write` means: how many bytes it has written, or that it failed, as
/// it has if it took nothing. `None` means that a signal interrupted it, so that it is made again.
fn bytes_written(answer: io::Result<usize>) -> Option<Result<usize, WriteFault>>
    ensures { result ≡ bytes_written_of answer }
{
    match answer {
        Ok(0) => Some(Err(WriteFault)),
        Ok(written) => Some(Ok(written)),
        Err(fault) if was_interrupted(&fault) => None,
        Err(_) => Some(Err(WriteFault)),
    }
}

/// The byte that a read of one byte has found, after which the buffer has `byte`: none at the end.
fn byte_found(n: usize, byte: u8) -> Option<u8>
    ensures { result ≡ byte_found_of n byte }
{
    if n == 0 { None } else { Some(byte) }
}

/// Counts the fault of a call, if it failed.
fn counted<T, E>(answer: Result<T, E>, faults: &mut u64) -> Result<T, E>
    ensures same { result ≡ answer }
    ensures faults { CountsFault faults.old faults.new result }
{
    if answer.is_err() {
        *faults = count_fault(*faults);
    }
    answer
}

/// Reads some bytes into `buffer`, again if a signal interrupted a read, and returns how many: none
/// only at the end, or if the buffer has no room. A call that fails takes no byte and counts one
/// more fault. No other call counts one.
pub(crate) fn read_some<R: Read>(
    reader: &mut R,
    faults: &mut u64,
    buffer: &mut [u8],
) -> Result<usize, ReadFault>
    ensures room { length buffer.new ≡ length buffer.old }
    ensures fits { IfOk result (λ n. n ≤ length buffer.old) }
    ensures bytes { ReadConsumes (R.remaining reader.old) (R.remaining reader.new) result
        buffer.new }
    ensures faults { CountsFault faults.old faults.new result }
{
    for _ in 0..u64::MAX {
        let answer = reader.read(buffer);
        if let Some(read) = bytes_read(answer) {
            return counted(read, faults);
        }
    }
    counted(Err(ReadFault), faults)
}

/// Writes some first bytes of `bytes`, again if a signal interrupted a write, and returns how many:
/// at least one. A call that fails writes none and counts one more fault. No other call counts one.
fn write_some<W: Write>(writer: &mut W, faults: &mut u64, bytes: &[u8]) -> Result<usize, WriteFault>
    ensures some { IfOk result (λ n. 0 < n) }
    ensures fits { IfOk result (λ n. n ≤ length bytes.now) }
    ensures bytes { WriteAppends (W.contents writer.old) (W.contents writer.new) result bytes.now }
    ensures faults { CountsFault faults.old faults.new result }
{
    for _ in 0..u64::MAX {
        let answer = writer.write(bytes);
        if let Some(written) = bytes_written(answer) {
            return counted(written, faults);
        }
    }
    counted(Err(WriteFault), faults)
}

/// Writes all bytes, by as few writes as the writer allows. A call that fails writes none or some
/// first ones of them, but never all, and counts one more fault. No other call counts one.
fn write_all<W: Write>(writer: &mut W, faults: &mut u64, bytes: &[u8]) -> Result<(), WriteFault>
    ensures bytes { MatchResult result
        (λ _. Appends (W.contents writer.old) (W.contents writer.new) bytes.now)
        (λ _. WritesPart (W.contents writer.old) (W.contents writer.new) bytes.now) }
    ensures faults { CountsFault faults.old faults.new result }
{
    let mut rest = bytes;
    while !rest.is_empty() {
        let n = write_some(writer, faults, rest)?;
        rest = &rest[n..];
    }
    Ok(())
}

impl<R: Read> ByteReader for Counting<R> {
    ghost remaining = { λ r. R.remaining r.inner };

    ghost read_faults = { λ r. r.faults };

    fn read_byte(&mut self) -> Result<Option<u8>, ReadFault> {
        let mut buffer = [0u8; 1];
        let n = read_some(&mut self.inner, &mut self.faults, &mut buffer)?;
        Ok(byte_found(n, buffer[0]))
    }
}

impl<W: Write> ByteWriter for Counting<W> {
    ghost contents = { λ w. W.contents w.inner };

    ghost write_faults = { λ w. w.faults };

    fn write_bytes(&mut self, bytes: &[u8]) -> Result<(), WriteFault> {
        write_all(&mut self.inner, &mut self.faults, bytes)
    }
}
