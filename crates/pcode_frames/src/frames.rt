//! Frames, and how calls, returns and static links work.
ghost use Rattle.std.specs.Prelude.{◌≡◌, ◌+◌, ◌-◌, ◌^◌, ◌<◌, ◌≤◌, ℕ, List, [], ◌∷◌, ◌++◌, false, Some, IfOk, IfSome, MatchOption, OnErr, length, take, drop, slice_get};
ghost use Rattle.pcode_frames.specs.declared.frame.Frame.{Frame};
ghost use Rattle.pcode_frames.specs.declared.limits.TheConstants.{LIVE_WORDS, MOST_FRAMES};
ghost use Rattle.pcode_frames.specs.Frames.{space, space_if_ok, space_after_call, current_of, is_full, link_at, link_up_of, space_after_ret, space_after_start};

use crate::frame::Frame;
use crate::halt::Halt;
use crate::limits::{LIVE_WORDS, MOST_FRAMES, STACK_WORDS};
use crate::memory::Memory;
use crate::stack::Stack;
use std::alloc::{AllocError, Global};
use std::marker::Model;

/// The frames, seen as a list, the main frame first and the current one last; at most 1,024. `new`
/// allocates their room, and no other call allocates.
#[derive(Drop)]
pub struct Frames {
    /// The frames below the current one; empty if there is no current one.
    below: Vec<Frame>,
    /// The current frame. It has its own field, since an interpreter reads it before each
    /// instruction: here that is a few loads from the struct itself, and none from the heap.
    current: Option<Frame>,
}

impl Model for Frames {
    ghost use Rattle.std.specs.Prelude.{◌≡◌, ◌+◌, ◌≤◌, List, [], ◌++◌, IfNone, option_to_list, vec_len, vec_capacity};
    ghost use Rattle.pcode_frames.specs.declared.frame.Frame.{Frame};
    ghost use Rattle.pcode_frames.specs.declared.limits.TheConstants.{MOST_FRAMES};
    ghost use Rattle.pcode_frames.specs.Frames.{AreLinked};

    ghost Value = { List Frame };

    ghost view = { λ f. f.below.items ++ option_to_list f.current };

    ghost invariant = { λ f. (vec_len f.below + 1 ≤ MOST_FRAMES)
        × (MOST_FRAMES ≤ vec_capacity f.below + 1)
        × IfNone f.current (f.below.items ≡ [])
        × AreLinked (f.below.items ++ option_to_list f.current) };
}

/// Moves `params` words from the stack to the words above the live ones, the top first.
fn take_parameters(memory: &mut Memory, stack: &mut Stack, params: u16)
    requires there { params ≤ length stack.old }
    requires room { length memory.old + params ≤ LIVE_WORDS }
    ensures memory { memory.new ≡ memory.old ++ take params stack.old }
    ensures stack { stack.new ≡ drop params stack.old }
{
    let words = usize::from(params);
    memory.extend(stack.upper(words));
    stack.discard(words);
}

impl Frames {
    /// Allocates the room for all frames. There is no frame yet.
    pub fn new(alloc: Global) -> Result<Frames, AllocError>
        ensures { IfOk result (λ f. f ≡ []) }
    {
        let below = Vec::with_capacity(alloc, MOST_FRAMES - 1)?;
        Ok(Frames {
            below,
            current: None,
        })
    }

    /// Returns the frame at `index`, if there is one. The main frame has index 0.
    pub fn frame(&self, index: u16) -> Option<Frame>
        ensures { result ≡ slice_get self.now index }
    {
        let index = usize::from(index);
        if index == self.below.len() {
            return self.current;
        }
        self.below.get(index).copied()
    }

    /// Returns the number of frames, at most 1,024.
    pub fn count(&self) -> usize
        ensures value { result ≡ length self.now }
        ensures bound { result ≤ MOST_FRAMES }
    {
        if self.current.is_none() {
            return 0;
        }
        self.below.len() + 1
    }

    /// Returns the current frame, if there is one: the frame of the procedure that runs.
    #[inline(always)]
    pub fn current(&self) -> Option<Frame>
        ensures { result ≡ current_of self.now }
    {
        self.current
    }

    /// Returns true if one more frame of `size` words does not fit.
    fn is_full(&self, memory: &Memory, size: u32) -> bool
        requires { size < 2 ^ 17 }
        ensures value { result ≡ is_full (space memory.now [] self.now) size }
        ensures frames { result ≡ false → length self.now < MOST_FRAMES }
        ensures words { result ≡ false → length memory.now + size ≤ LIVE_WORDS }
    {
        // Without a current frame there is none below either, so the count below decides alone.
        self.below.len() + 1 >= MOST_FRAMES || u32::from(memory.top()) + size > LIVE_WORDS as u32
    }

    /// Makes `frame` the current one.
    fn enter(&mut self, frame: Frame)
        requires room { length self.old < MOST_FRAMES }
        requires link { frame.link ≤ length self.old - 1 }
        ensures { self.new ≡ self.old ++ frame ∷ [] }
    {
        if let Some(caller) = self.current {
            self.below.push_reserved(caller);
        }
        self.current = Some(frame);
    }

    /// Drops the current frame.
    fn leave(&mut self)
        ensures { self.new ≡ take (length self.old - 1) self.old }
    {
        self.current = self.below.pop();
    }

    /// Makes the main frame, of procedure 1, with `words` words, all zero. There is no frame and no
    /// live word yet. Fails with `Halt::Overflow` exactly if `words` is more than 16,383. Then
    /// nothing has changed.
    pub fn start(&mut self, memory: &mut Memory, words: u16) -> Result<(), Halt>
        requires frames { self.old ≡ [] }
        requires words { memory.old ≡ [] }
        ensures value { (stack : List ℕ)
            → space_after_start words (space memory.old stack self.old)
            ≡ space_if_ok result (space memory.new stack self.new) }
        ensures err { OnErr result ((memory.new ≡ memory.old) × (self.new ≡ self.old)) }
    {
        if self.is_full(memory, u32::from(words)) {
            return Err(Halt::Overflow);
        }
        memory.grow(words);
        self.enter(Frame {
            procedure: 1,
            base: 0,
            size: words,
            link: 0,
            back: 0,
        });
        Ok(())
    }

    /// Calls `procedure`. Moves `params` words from the stack to a new frame above all live words,
    /// the top to offset 1; `vars` zeros follow. Fails with `Halt::Empty` if the stack has too few
    /// words, else with `Halt::Overflow` if there are 1,024 frames or more than 16,383 words would
    /// be live. Then nothing has changed.
    ///
    /// The word below the top gets offset 2. `link`, the static link, is the index of a frame that
    /// exists. `back` is the offset at which the caller goes on, in bytes from the segment's start.
    pub fn call(
        &mut self,
        memory: &mut Memory,
        stack: &mut Stack,
        procedure: u8,
        params: u16,
        vars: u16,
        link: u16,
        back: u32,
    ) -> Result<(), Halt>
        requires { link < length self.old }
        ensures value { space_after_call procedure params vars link back
            (space memory.old stack.old self.old)
            ≡ space_if_ok result (space memory.new stack.new self.new) }
        ensures err { OnErr result
            ((memory.new ≡ memory.old) × (stack.new ≡ stack.old) × (self.new ≡ self.old)) }
    {
        if stack.len() < usize::from(params) {
            return Err(Halt::Empty);
        }
        let size = u32::from(params) + u32::from(vars);
        if self.is_full(memory, size) {
            return Err(Halt::Overflow);
        }
        let base = memory.top();
        take_parameters(memory, stack, params);
        memory.grow(vars);
        self.enter(Frame {
            procedure,
            base,
            size: size as u16,
            link,
            back,
        });
        Ok(())
    }

    /// Ends the current frame, not the main one, and returns it. Pushes that frame's first `words`
    /// words, offset 1 last, and lowers memory to that frame's base. Fails with `Halt::BadMemory`
    /// if one of these words is not live, else with `Halt::Overflow` if they do not fit on the
    /// stack. Then nothing has changed.
    pub fn ret(&mut self, memory: &mut Memory, stack: &mut Stack, words: u16) -> Result<Frame, Halt>
        requires { 2 ≤ length self.old }
        ensures value { (frame : Frame) → current_of self.old ≡ Some frame →
            space_after_ret words frame (space memory.old stack.old self.old)
            ≡ space_if_ok result (space memory.new stack.new self.new) }
        ensures frame { IfOk result (λ frame. current_of self.old ≡ Some frame) }
        ensures err { OnErr result
            ((memory.new ≡ memory.old) × (stack.new ≡ stack.old) × (self.new ≡ self.old)) }
    {
        let Some(frame) = self.current() else {
            unreachable!()
        };
        let last = usize::from(frame.base) + usize::from(words);
        if usize::from(memory.top()) < last {
            return Err(Halt::BadMemory);
        }
        if stack.len() + usize::from(words) > STACK_WORDS {
            return Err(Halt::Overflow);
        }
        memory.push_block(stack, frame.base + 1, words);
        memory.lower(frame.base);
        self.leave();
        Ok(frame)
    }

    /// Returns the static link of the frame at `index`. That of the main frame is not followed.
    fn link_of(&self, index: u16) -> Option<u16>
        ensures value { result ≡ link_at self.now index }
        ensures below { IfSome result (λ link. link < index) }
    {
        // Opens the frames to the proof, for their invariant: each link leads down.
        let _ = &self.below;
        if index == 0 {
            return None;
        }
        let frame = self.frame(index)?;
        Some(frame.link)
    }

    /// Returns the index of the current frame, if there is one.
    fn current_index(&self) -> Option<u16>
        ensures { MatchOption result (self.now ≡ []) (λ index. index + 1 ≡ length self.now) }
    {
        self.current?;
        Some(self.below.len() as u16)
    }

    /// Returns the index of the frame `n` static links up from the current one, if there is such a
    /// frame. The main frame's link is not followed.
    #[tactic(auto, using(crate::proofs::Links::up_more, crate::proofs::Links::up_ends, crate::proofs::Links::up_from_last))]
    pub fn link_up(&self, n: u8) -> Option<u16>
        ensures value { result ≡ link_up_of self.now n }
        ensures within { IfSome result (λ index. index < length self.now) }
    {
        let mut index = self.current_index()?;
        for _ in 0..n {
            index = self.link_of(index)?;
        }
        Some(index)
    }
}
