//! Bytes at an index after a pointer: LDB, STB.
ghost use Rattle.std.specs.Prelude.{◌≡◌};
ghost use Rattle.pcode_machine.specs.Bytes.{byte_address, byte_loaded, byte_stored};
ghost use Rattle.pcode_machine.specs.Ready.{ChangesTo, state_of};

use crate::errors::ExecutionError;
use crate::parts::MachineParts;
use crate::turn::Stop;

/// Returns the byte address at `index` after `base`, not modulo 65,536. The index is signed, the
/// base is not.
pub fn byte_address(base: u16, index: u16) -> i32
    ensures { result ≡ byte_address base index }
{
    i32::from(base) + i32::from(index.cast_signed())
}

impl MachineParts {
    /// Replaces index and base on top by the byte there, and goes on at `next`.
    pub fn load_byte(&mut self, next: u32) -> Result<(), Stop>
        ensures { ChangesTo (byte_loaded next (state_of self.old) self.old.stack)
            self.old self.new result }
    {
        let index = self.operand(0)?;
        let base = self.operand(1)?;
        let Some(byte) = self.memory.get_byte(byte_address(base, index)) else {
            return Err(Stop::Error(ExecutionError::BadAddress));
        };
        self.stack.discard(1);
        self.stack.set_top(u16::from(byte));
        self.next = next;
        Ok(())
    }

    /// Pops a word, an index and a base, stores the word's low byte there, and goes on at `next`.
    pub fn store_byte(&mut self, next: u32) -> Result<(), Stop>
        ensures { ChangesTo (byte_stored next (state_of self.old) self.old.stack)
            self.old self.new result }
    {
        let value = self.operand(0)?;
        let index = self.operand(1)?;
        let address = byte_address(self.operand(2)?, index);
        if !self.memory.put_byte(address, (value % 256) as u8) {
            return Err(Stop::Error(ExecutionError::BadAddress));
        }
        self.stack.discard(3);
        self.next = next;
        Ok(())
    }
}
