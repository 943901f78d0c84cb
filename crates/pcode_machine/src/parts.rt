//! The parts of a machine besides its program.
ghost use Rattle.std.specs.Prelude.{◌≡◌, ◌+◌, Some, None, slice_get, IfOk, MatchResult, nat_le, if◌then◌else◌};
ghost use Rattle.pcode_frames.specs.declared.limits.TheConstants.{LIVE_WORDS};
ghost use Rattle.pcode_machine.specs.declared.errors.ExecutionError.TheVariants.{StackUnderflow};
ghost use Rattle.pcode_machine.specs.declared.turn.Stop.TheVariants.{Error};
ghost use Rattle.pcode_machine.specs.Configuration.{framed, unframed};
ghost use Rattle.pcode_machine.specs.Ready.{state_of};

use crate::errors::ExecutionError;
use crate::turn::{Stop, Transfer};
use pcode_file::Proc;
use pcode_frames::{Frames, Memory, Stack};
use std::alloc::{AllocError, Global};

/// The parts of a machine besides its program. Instructions and transfers change them. Their
/// contracts are about the state that the parts are.
#[derive(Drop)]
pub struct MachineParts {
    pub memory: Memory,
    pub stack: Stack,
    /// The frames; none if the main frame does not fit.
    pub frames: Frames,
    /// The offset of the next instruction, in bytes from the segment's start.
    pub next: u32,
    /// The result of the last transfer: 0, or 2 if the unit does not exist.
    pub io_result: u16,
    /// The bytes that are still to be moved.
    pub transfer: Option<Transfer>,
}

impl MachineParts {
    /// Makes room for a machine over any program: no word is live, and there is no frame.
    pub fn new(alloc: Global) -> Result<MachineParts, AllocError>
        ensures { IfOk result (λ m. state_of m ≡ unframed 0) }
    {
        Ok(MachineParts {
            memory: Memory::new(alloc)?,
            stack: Stack::new(alloc)?,
            frames: Frames::new(alloc)?,
            next: 0,
            io_result: 0,
            transfer: None,
        })
    }

    /// Returns the word at a depth of the stack, whose top has depth 0. Fails if there is none.
    #[inline(always)]
    pub fn operand(&self, depth: u16) -> Result<u16, Stop>
        ensures { MatchResult result (λ word. slice_get self.now.stack depth ≡ Some word)
            (λ stop. (slice_get self.now.stack depth ≡ None) × (stop ≡ Error StackUnderflow)) }
    {
        self.stack
            .get(depth)
            .ok_or(Stop::Error(ExecutionError::StackUnderflow))
    }

    /// Puts the main frame into the room, if it fits, and goes to ENTER of the main program.
    pub fn start(&mut self, main: Proc)
        requires { state_of self.old ≡ unframed 0 }
        ensures state { state_of self.new
            ≡ (if nat_le (main.params + main.vars) LIVE_WORDS
            then framed main.enter (main.params + main.vars) else unframed main.enter) }
        ensures next { self.new.next ≡ main.enter }
    {
        self.next = main.enter;
        // Parameters and data together may exceed 16 bits.
        if let Ok(size) = u16::try_from(u32::from(main.params) + u32::from(main.vars)) {
            // A refusal leaves no frame, as for a main frame that does not fit.
            let _fits = self.frames.start(&mut self.memory, size);
        }
    }
}
