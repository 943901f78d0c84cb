//! Jumps, calls and returns: UJP, FJP, EFJ, NFJ, XJP, CLP, CGP, CIP, RNP; and the frames to which
//! static links lead.
ghost use Rattle.std.specs.Prelude.{◌≡◌, ◌≤◌, ◌%◌, ◌==◌, if◌then◌else◌, IsSome, MatchOption, OnErr, Ok, Some, length};
ghost use Rattle.pcode_file.specs.declared.file.Proc.{Proc};
ghost use Rattle.pcode_frames.specs.declared.frame.Frame.{Frame};
ghost use Rattle.pcode_frames.specs.Frames.{current_of};
ghost use Rattle.pcode_ops.specs.Jumps.{IsCaseTable, case_of};
ghost use Rattle.pcode_machine.specs.Calls.{branched, branched_by_two, frame_up, link_outward, left};
ghost use Rattle.pcode_machine.specs.Effects.{calling, IsPossible};
ghost use Rattle.pcode_machine.specs.Execute.{made};
ghost use Rattle.pcode_machine.specs.Ready.{ChangesTo, state_of, state_if_ok};

use crate::errors::ExecutionError;
use crate::parts::MachineParts;
use crate::turn::Stop;
use pcode_frames::Frame;
use pcode_ops::Program;

impl MachineParts {
    /// Goes on at an offset.
    #[inline(always)]
    pub fn go(&mut self, offset: u32) -> Result<(), Stop>
        ensures ok { result ≡ Ok tt }
        ensures value { self.new ≡ record self.old { next = offset } }
    {
        self.next = offset;
        Ok(())
    }

    /// Pops a word, and goes on at `target` if its low bit is 0, and at `next` otherwise.
    #[inline(always)]
    pub fn jump_unless(&mut self, target: u32, next: u32) -> Result<(), Stop>
        ensures { ChangesTo (branched (λ v. if v % 2 == 0 then target else next)
            (state_of self.old) self.old.stack) self.old self.new result }
    {
        let word = self.stack.pop()?;
        self.next = if word % 2 == 0 { target } else { next };
        Ok(())
    }

    /// Pops two words, and goes on at `equal` if they are equal, and at `unequal` otherwise.
    #[inline(always)]
    pub fn jump_by_equal(&mut self, equal: u32, unequal: u32) -> Result<(), Stop>
        ensures { ChangesTo (branched_by_two (λ a b. if a == b then equal else unequal)
            (state_of self.old) self.old.stack) self.old self.new result }
    {
        if self.stack.len() < 2 {
            return Err(Stop::Error(ExecutionError::StackUnderflow));
        }
        let b = self.stack.pop()?;
        let a = self.stack.pop()?;
        self.next = if a == b { equal } else { unequal };
        Ok(())
    }

    /// Pops a word, and goes on at its entry in a case table from `low` to `high`, or at the UJP
    /// before the table.
    pub fn jump_by_case(
        &mut self,
        program: &Program,
        low: i16,
        high: i16,
        table: usize,
    ) -> Result<(), Stop>
        requires { (q : Proc) × IsCaseTable program.now.segment q low high table }
        ensures { ChangesTo (branched (λ v. case_of program.now.segment low high table v)
            (state_of self.old) self.old.stack) self.old self.new result }
    {
        let word = self.stack.pop()?;
        self.next = program.case(low, high, table, word);
        Ok(())
    }

    /// Returns the word address below the frame `levels` static links up from the current one. That
    /// frame exists.
    pub fn base_up(&self, levels: u8) -> u16
        requires { IsSome (frame_up self.now.frames levels) }
        ensures { MatchOption (frame_up self.now.frames levels) ⊥ (λ frame. result ≡ frame.base) }
    {
        let Some(index) = self.frames.link_up(levels) else {
            unreachable!()
        };
        match self.frames.frame(index) {
            Some(frame) => frame.base,
            None => unreachable!(),
        }
    }

    /// Returns the index of the frame to which the procedure in the current frame links procedure
    /// `number`: one lex level further out than that one.
    pub fn link_outward(&self, program: &Program, frame: Frame, number: u8) -> Option<u16>
        ensures { result ≡ link_outward program.now frame number self.now.frames }
    {
        let file = program.file();
        let caller = file.procedure(frame.procedure)?;
        let callee = file.procedure(number)?;
        // Lex levels are 127 at most.
        let levels = u16::from(caller.level) + 1;
        self.frames
            .link_up(levels.saturating_sub(u16::from(callee.level)) as u8)
    }

    /// Calls a procedure, whose static link is the frame at index `link`. When it returns,
    /// execution goes on at `next`.
    pub fn call_procedure(
        &mut self,
        program: &Program,
        number: u8,
        link: Option<u16>,
        back: u32,
    ) -> Result<(), Stop>
        requires { IsPossible (calling program.now number link) (state_of self.old) }
        ensures value { made (calling program.now number link) back (state_of self.old)
            ≡ Some (state_if_ok result (state_of self.new)) }
        ensures err { OnErr result (self.new ≡ self.old) }
    {
        let Some(callee) = program.file().procedure(number) else {
            unreachable!()
        };
        let Some(link) = link else { unreachable!() };
        self.frames.call(
            &mut self.memory,
            &mut self.stack,
            number,
            callee.params,
            callee.vars,
            link,
            back,
        )?;
        self.next = callee.enter;
        Ok(())
    }

    /// Returns from the procedure of the current frame, which is not the main frame, with `words`
    /// words.
    pub fn leave(&mut self, words: u8) -> Result<(), Stop>
        requires { 2 ≤ length self.old.frames }
        ensures value { (frame : Frame) → current_of self.old.frames ≡ Some frame →
            left words frame (state_of self.old) ≡ state_if_ok result (state_of self.new) }
        ensures err { OnErr result (self.new ≡ self.old) }
    {
        let frame = self
            .frames
            .ret(&mut self.memory, &mut self.stack, u16::from(words))?;
        self.next = frame.back;
        Ok(())
    }
}
