//! Instructions that read and write at pointers, which are addresses in bytes: STO, SIND, IND.
ghost use Rattle.std.specs.Prelude.{◌≡◌};
ghost use Rattle.pcode_machine.specs.Pointers.{pointer_past, fetched, pointed, stored_at};
ghost use Rattle.pcode_machine.specs.Ready.{ChangesTo, state_of};

use crate::errors::ExecutionError;
use crate::parts::MachineParts;
use crate::turn::Stop;
use pcode_frames::Memory;

/// Returns the pointer `words` words further on, modulo 65,536.
pub fn pointer_past(pointer: u16, words: u16) -> u16
    ensures { result ≡ pointer_past pointer words }
{
    pointer.wrapping_add(words.wrapping_mul(2))
}

/// Returns the word at a pointer, which has to be even, if it is live.
pub fn pointed(memory: &Memory, pointer: u16) -> Option<u16>
    ensures { result ≡ pointed memory.now pointer }
{
    if pointer % 2 == 0 {
        memory.get(pointer / 2)
    } else {
        None
    }
}

impl MachineParts {
    /// Replaces the pointer on top by the word `words` words after it, and goes on at `next`.
    pub fn fetch(&mut self, words: u16, next: u32) -> Result<(), Stop>
        ensures { ChangesTo (fetched words next (state_of self.old) self.old.stack)
            self.old self.new result }
    {
        let pointer = self.operand(0)?;
        let Some(word) = pointed(&self.memory, pointer_past(pointer, words)) else {
            return Err(Stop::Error(ExecutionError::BadAddress));
        };
        self.stack.set_top(word);
        self.next = next;
        Ok(())
    }

    /// Pops a word and a pointer, stores the word there, and goes on at `next`.
    pub fn store_at(&mut self, next: u32) -> Result<(), Stop>
        ensures { ChangesTo (stored_at next (state_of self.old) self.old.stack)
            self.old self.new result }
    {
        let value = self.operand(0)?;
        let pointer = self.operand(1)?;
        if pointed(&self.memory, pointer).is_none() {
            return Err(Stop::Error(ExecutionError::BadAddress));
        }
        self.put_word(2, pointer / 2, value, next);
        Ok(())
    }
}
