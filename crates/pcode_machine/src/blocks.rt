//! Blocks of words at pointers: MOV, LDM, STM.
ghost use Rattle.std.specs.Prelude.{◌≡◌};
ghost use Rattle.pcode_machine.specs.Blocks.{block_loaded, block_moved, block_stored, is_block};
ghost use Rattle.pcode_machine.specs.Ready.{ChangesTo, state_of};

use crate::errors::ExecutionError;
use crate::parts::MachineParts;
use crate::turn::Stop;
use pcode_frames::{Memory, STACK_WORDS};

/// Returns true if `words` words from `pointer` on are live. The pointer has to be even, unless
/// there are no words.
fn is_block(memory: &Memory, pointer: u16, words: u16) -> bool
    ensures { result ≡ is_block memory.now pointer words }
{
    if words == 0 {
        return true;
    }
    if pointer % 2 != 0 {
        return false;
    }
    memory.is_live(pointer / 2, words)
}

impl MachineParts {
    /// Pops two pointers, copies `words` words from the one on top to the other, and goes on at
    /// `next`. All are read before any is written.
    pub fn move_block(&mut self, words: u16, next: u32) -> Result<(), Stop>
        ensures { ChangesTo (block_moved words next (state_of self.old) self.old.stack)
            self.old self.new result }
    {
        let from = self.operand(0)?;
        let to = self.operand(1)?;
        if !is_block(&self.memory, from, words) {
            return Err(Stop::Error(ExecutionError::BadAddress));
        }
        if !is_block(&self.memory, to, words) {
            return Err(Stop::Error(ExecutionError::BadAddress));
        }
        self.stack.discard(2);
        self.memory.copy(to / 2, from / 2, words);
        self.next = next;
        Ok(())
    }

    /// Replaces the pointer on top by the `words` words from it on, the first on top, and goes on
    /// at `next`.
    pub fn load_block(&mut self, words: u16, next: u32) -> Result<(), Stop>
        ensures { ChangesTo (block_loaded words next (state_of self.old) self.old.stack)
            self.old self.new result }
    {
        let pointer = self.operand(0)?;
        if !is_block(&self.memory, pointer, words) {
            return Err(Stop::Error(ExecutionError::BadAddress));
        }
        if self.stack.len() - 1 + usize::from(words) > STACK_WORDS {
            return Err(Stop::Error(ExecutionError::NoRoom));
        }
        self.stack.pop()?;
        self.memory.push_block(&mut self.stack, pointer / 2, words);
        self.next = next;
        Ok(())
    }

    /// Pops `words` words to where the pointer below them points, the top to the first. Then it
    /// pops the pointer, and goes on at `next`.
    #[tactic(auto, using(base::proofs::Lists::drop_next))]
    pub fn store_block(&mut self, words: u16, next: u32) -> Result<(), Stop>
        ensures { ChangesTo (block_stored words next (state_of self.old)) self.old self.new result }
    {
        let pointer = self.operand(words)?;
        if !is_block(&self.memory, pointer, words) {
            return Err(Stop::Error(ExecutionError::BadAddress));
        }
        self.memory.pop_block(&mut self.stack, pointer / 2, words);
        self.stack.pop()?;
        self.next = next;
        Ok(())
    }
}
