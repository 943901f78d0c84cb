//! A frame.

/// A frame of a procedure: its parameters first, then its data.
#[derive(Clone, Copy, Debug, PartialEq, Eq)]
pub struct Frame {
    /// The procedure's number.
    pub procedure: u8,
    /// The address of the word below its first one: the word at offset k is word `base + k`.
    pub base: u16,
    /// Its number of words.
    pub size: u16,
    /// The index of the frame that its static link leads to, which is below its own index. The main
    /// frame has index 0 and link 0.
    pub link: u16,
    /// The offset at which the caller goes on, in bytes from the segment's start.
    pub back: u32,
}
