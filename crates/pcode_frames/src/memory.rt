//! Memory: its live words, and their bytes.
ghost use Rattle.std.specs.Prelude.{◌≡◌, ◌+◌, ◌<◌, ◌≤◌, [], ◌++◌, IfOk, length, is_some, replicate, take};
ghost use Rattle.pcode_frames.specs.declared.limits.TheConstants.{LIVE_WORDS};
ghost use Rattle.pcode_frames.specs.Words.{live_word_at, with_word, half_of, with_half, byte_from, live_byte_at, with_byte_from, with_byte};

use crate::limits::LIVE_WORDS;
use std::alloc::{AllocError, Global};
use std::marker::Model;

/// Memory, seen as the list of its live words from word 1 on. Word 0 is never live. `new` allocates
/// all of its room, and no other call allocates. A new one has no live word: frames make words
/// live.
#[derive(Drop)]
pub struct Memory {
    pub(crate) words: Vec<u16>,
}

impl Model for Memory {
    ghost use Rattle.std.specs.Prelude.{◌≤◌, ℕ, List, vec_len, vec_capacity};
    ghost use Rattle.pcode_frames.specs.declared.limits.TheConstants.{LIVE_WORDS};

    ghost Value = { List ℕ };

    ghost view = { λ m. m.words.items };

    ghost invariant = { λ m. (vec_len m.words ≤ LIVE_WORDS) × (LIVE_WORDS ≤ vec_capacity m.words) };
}

/// Returns the byte of `word` at byte address `address`. An even address is the low byte.
fn half_of(address: u32, word: u16) -> u8
    ensures { result ≡ half_of address word }
{
    if address % 2 == 0 {
        (word % 256) as u8
    } else {
        (word / 256) as u8
    }
}

/// Returns `word` with its byte at byte address `address` replaced by `byte`.
fn with_half(address: u32, word: u16, byte: u8) -> u16
    ensures { result ≡ with_half address word byte }
{
    if address % 2 == 0 {
        word / 256 * 256 + u16::from(byte)
    } else {
        u16::from(byte) * 256 + word % 256
    }
}

impl Memory {
    /// Allocates the room for all words. No word is live yet.
    pub fn new(alloc: Global) -> Result<Memory, AllocError>
        ensures { IfOk result (λ m. m ≡ []) }
    {
        let words = Vec::with_capacity(alloc, LIVE_WORDS)?;
        Ok(Memory { words })
    }

    /// Returns the number of live words, which is the address of the highest; at most 16,383.
    pub fn top(&self) -> u16
        ensures value { result ≡ length self.now }
        ensures bound { result ≤ LIVE_WORDS }
    {
        self.words.len() as u16
    }

    /// Makes as many words above the live ones live as `words` has, with these values.
    #[inline(always)]
    pub(crate) fn extend(&mut self, words: &[u16])
        requires { length self.old + length words.now ≤ LIVE_WORDS }
        ensures { self.new ≡ self.old ++ words.now }
    {
        for word in words {
            self.words.push_reserved(*word);
        }
    }

    /// Makes `count` more words live, all zero.
    pub(crate) fn grow(&mut self, count: u16)
        requires { length self.old + count ≤ LIVE_WORDS }
        ensures { self.new ≡ self.old ++ replicate count 0 }
    {
        for _ in 0..count {
            self.words.push_reserved(0);
        }
    }

    /// Keeps only the words up to address `top` live.
    pub(crate) fn lower(&mut self, top: u16)
        ensures { self.new ≡ take top self.old }
    {
        self.words.truncate(usize::from(top));
    }

    /// Returns the word at address `word`, if it is live.
    pub fn get(&self, word: u16) -> Option<u16>
        ensures { result ≡ live_word_at self.now word }
    {
        let index = usize::from(word).checked_sub(1)?;
        self.words.get(index).copied()
    }

    /// Stores `value` at address `word` if that word is live, and changes nothing else. Returns
    /// whether it is live.
    pub fn put(&mut self, word: u16, value: u16) -> bool
        ensures value { self.new ≡ with_word self.old word value }
        ensures live { result ≡ is_some (live_word_at self.old word) }
    {
        if word == 0 {
            return false;
        }
        match self.words.get_mut(usize::from(word) - 1) {
            Some(place) => {
                *place = value;
                true
            }
            None => false,
        }
    }

    /// Returns the byte at byte address `address`, if its word is live.
    fn byte_from(&self, address: u32) -> Option<u8>
        ensures { result ≡ byte_from self.now address }
    {
        if address < 2 {
            return None;
        }
        let index = address as usize / 2 - 1;
        let word = *self.words.get(index)?;
        Some(half_of(address, word))
    }

    /// Returns the byte at byte address `address`, if its word is live. The low byte of word k has
    /// address 2 * k, and the high byte the next. An address is not taken modulo 65,536, and no
    /// negative one is live.
    pub fn get_byte(&self, address: i32) -> Option<u8>
        ensures { result ≡ live_byte_at self.now address }
    {
        if address < 0 {
            return None;
        }
        self.byte_from(address.unsigned_abs())
    }

    /// Stores `value` at byte address `address`. Returns true if its word is live; if it is not,
    /// nothing changes.
    fn put_byte_from(&mut self, address: u32, value: u8) -> bool
        ensures value { self.new ≡ with_byte_from self.old address value }
        ensures live { result ≡ is_some (byte_from self.old address) }
    {
        if address < 2 {
            return false;
        }
        let index = address as usize / 2 - 1;
        match self.words.get_mut(index) {
            Some(word) => {
                *word = with_half(address, *word, value);
                true
            }
            None => false,
        }
    }

    /// Stores `value` at byte address `address` if its word is live, and changes nothing else: the
    /// other byte of the word stays. Returns whether the word is live.
    pub fn put_byte(&mut self, address: i32, value: u8) -> bool
        ensures value { self.new ≡ with_byte self.old address value }
        ensures live { result ≡ is_some (live_byte_at self.old address) }
    {
        if address < 0 {
            return false;
        }
        self.put_byte_from(address.unsigned_abs(), value)
    }
}
