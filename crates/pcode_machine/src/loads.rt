//! Instructions that push a word, which are constants, words of frames and pointers to them, and
//! those that store one: STL, STR, SRO.
ghost use Rattle.std.specs.Prelude.{◌≡◌, ◌+◌, ◌≤◌, if◌then◌else◌, is_some, None, Some, drop, length};
ghost use Rattle.pcode_frames.specs.Words.{live_word_at, with_word};
ghost use Rattle.pcode_machine.specs.Loads.{pushed, address_of, loaded, stored};
ghost use Rattle.pcode_machine.specs.Ready.{ChangesTo, state_of};

use crate::errors::ExecutionError;
use crate::parts::MachineParts;
use crate::turn::Stop;
use pcode_frames::Memory;

/// Returns the address of a word in bytes, modulo 65,536.
pub fn address_of(word: u16) -> u16
    ensures { result ≡ address_of word }
{
    word.wrapping_mul(2)
}

/// Returns the address in bytes, modulo 65,536, of the word at `offset` from a base.
pub fn address_from(base: u16, offset: u16) -> u16
    ensures { result ≡ address_of (base + offset) }
{
    address_of(base.wrapping_add(offset))
}

/// Returns the address of the word at `offset` from a base, if it is live.
#[inline(always)]
pub fn live_word(memory: &Memory, base: u16, offset: u16) -> Option<u16>
    ensures { result ≡ (if is_some (live_word_at memory.now (base + offset))
        then Some (base + offset) else None) }
{
    // No live word has a greater address than the top.
    let _top = memory.top();
    let word = base.checked_add(offset)?;
    if memory.get(word).is_some() {
        Some(word)
    } else {
        None
    }
}

impl MachineParts {
    /// Returns the word at `offset` from a base, if it is live.
    #[inline(always)]
    pub fn word(&self, base: u16, offset: u16) -> Option<u16>
        ensures { result ≡ live_word_at self.now.memory (base + offset) }
    {
        // No live word has a greater address than the top.
        let _top = self.memory.top();
        self.memory.get(base.checked_add(offset)?)
    }

    /// Pushes a word, and goes on at `next`. The stack has at most 1,024 words.
    #[inline(always)]
    pub fn push(&mut self, word: u16, next: u32) -> Result<(), Stop>
        ensures { ChangesTo (pushed word next (state_of self.old)) self.old self.new result }
    {
        self.stack.push(word)?;
        self.next = next;
        Ok(())
    }

    /// Pushes the word at `offset` from a base, and goes on at `next`.
    #[inline(always)]
    pub fn load(&mut self, base: u16, offset: u16, next: u32) -> Result<(), Stop>
        ensures { ChangesTo (loaded (base + offset) next (state_of self.old))
            self.old self.new result }
    {
        match self.word(base, offset) {
            Some(word) => self.push(word, next),
            None => Err(Stop::Error(ExecutionError::BadAddress)),
        }
    }

    /// Drops the top `popped` words, stores a word at an address, and goes on at `next`.
    #[inline(always)]
    pub fn put_word(&mut self, popped: usize, address: u16, word: u16, next: u32)
        requires { popped ≤ length self.old.stack }
        ensures { self.new ≡ record self.old {
          memory = with_word self.old.memory address word;
          stack = drop popped self.old.stack;
          next = next;
        } }
    {
        self.stack.discard(popped);
        self.memory.put(address, word);
        self.next = next;
    }

    /// Pops a word to the live word at `offset` from a base, and goes on at `next`.
    #[inline(always)]
    pub fn store(&mut self, base: u16, offset: u16, next: u32) -> Result<(), Stop>
        ensures { ChangesTo (stored (base + offset) next (state_of self.old) self.old.stack)
            self.old self.new result }
    {
        if self.stack.len() == 0 {
            return Err(Stop::Error(ExecutionError::StackUnderflow));
        }
        let Some(word) = live_word(&self.memory, base, offset) else {
            return Err(Stop::Error(ExecutionError::BadAddress));
        };
        let value = self.stack.top();
        self.put_word(1, word, value, next);
        Ok(())
    }
}
