//! Writers of text. After a write has failed, nothing more is written.
//!
//! std's `Write` has no word for "a write failed", so no clause over it can say that a fault was
//! returned, or that nothing was written after it. The trait here has one. The wrapper below makes
//! one of any `Write`.
ghost use Rattle.std.specs.Prelude.{◌≡◌, Bool, false, is_err};

use std::fmt::Display;
use std::io::{self, Write};

/// A writer of text, up to its first fault.
pub trait TextWriter {
    /// True if a write has failed.
    ghost has_failed: { Self → Bool };

    /// Writes a text to a writer that has not failed. The writer has then failed exactly if the
    /// answer is `Err`. After an `Err` nothing more may be written.
    fn write_fmt<D: Display + Drop>(&mut self, text: D) -> io::Result<()>
        requires { has_failed self.old ≡ false }
        ensures { has_failed self.new ≡ is_err result };
}

/// A writer of bytes that has not failed, or that failed at its last write.
#[derive(Drop)]
pub struct UpToFault<'a, W: Write> {
    inner: &'a mut W,
    failed: bool,
}

impl<'a, W: Write> UpToFault<'a, W> {
    /// Wraps any `Write`, as a writer that has not failed.
    pub fn new(inner: &'a mut W) -> UpToFault<'a, W>
        ensures { result.failed ≡ false }
    {
        UpToFault {
            inner,
            failed: false,
        }
    }
}

impl<W: Write> TextWriter for UpToFault<'_, W> {
    ghost has_failed = { λ w. w.failed };

    fn write_fmt<D: Display + Drop>(&mut self, text: D) -> io::Result<()> {
        let result = self.inner.write_fmt(text);
        self.failed = result.is_err();
        result
    }
}
