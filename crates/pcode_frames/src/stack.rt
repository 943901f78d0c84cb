//! The evaluation stack.
ghost use Rattle.std.specs.Prelude.{◌≡◌, ◌<◌, ◌≤◌, [], ◌∷◌, IfOk, IfErr, OnOk, OnErr, length, take, drop, slice_get};
ghost use Rattle.pcode_frames.specs.declared.limits.TheConstants.{STACK_WORDS};
ghost use Rattle.pcode_frames.specs.declared.halt.Halt.TheVariants.{Empty, Overflow};

use crate::halt::Halt;
use crate::limits::STACK_WORDS;
use std::alloc::{AllocError, Global};
use std::marker::Model;

/// The evaluation stack, seen as the list of its words, the top first; at most 1,024. `new`
/// allocates all of its room, and no other call allocates.
#[derive(Drop)]
pub struct Stack {
    /// The 1,024 words of its room. The words on the stack are the last of them, the top first.
    room: Vec<u16>,
    /// The number of words of the room that are free.
    free: usize,
}

impl Model for Stack {
    ghost use Rattle.std.specs.Prelude.{◌≡◌, ◌≤◌, ℕ, List, drop, vec_len};
    ghost use Rattle.pcode_frames.specs.declared.limits.TheConstants.{STACK_WORDS};

    ghost Value = { List ℕ };

    ghost view = { λ s. drop s.free s.room.items };

    ghost invariant = { λ s. (vec_len s.room ≡ STACK_WORDS) × (s.free ≤ STACK_WORDS) };
}

impl Stack {
    /// Allocates an empty stack.
    pub fn new(alloc: Global) -> Result<Stack, AllocError>
        ensures { IfOk result (λ s. s ≡ []) }
    {
        let room = vec![in alloc; 0; STACK_WORDS]?;
        Ok(Stack {
            room,
            free: STACK_WORDS,
        })
    }

    /// Returns the number of words on the stack, at most 1,024.
    #[inline(always)]
    pub fn len(&self) -> usize
        ensures value { result ≡ length self.now }
        ensures bound { result ≤ STACK_WORDS }
    {
        STACK_WORDS - self.free
    }

    /// Returns the word at `depth`, if there is one. The top has depth 0.
    pub fn get(&self, depth: u16) -> Option<u16>
        ensures { result ≡ slice_get self.now depth }
    {
        self.room.get(self.free + usize::from(depth)).copied()
    }

    /// Returns the top word. Requires that the stack has a word.
    #[inline(always)]
    pub fn top(&self) -> u16
        requires { 1 ≤ length self.now }
        ensures { self.now ≡ result ∷ drop 1 self.now }
    {
        let top = self.free;
        self.room[top]
    }

    /// Replaces the top word by `top`. Requires that the stack has a word.
    #[inline(always)]
    pub fn set_top(&mut self, top: u16)
        requires { 1 ≤ length self.old }
        ensures { self.new ≡ top ∷ drop 1 self.old }
    {
        self.room[self.free] = top;
    }

    /// Returns the top `words` words, the top first. Requires that the stack has at least `words`.
    #[inline(always)]
    pub(crate) fn upper(&self, words: usize) -> &[u16]
        requires { words ≤ length self.now }
        ensures { result.now ≡ take words self.now }
    {
        &self.room[self.free..self.free + words]
    }

    /// Pushes `word`. Fails with `Halt::Overflow` exactly if there are 1,024 words. Then nothing
    /// has changed.
    #[inline(always)]
    pub fn push(&mut self, word: u16) -> Result<(), Halt>
        ensures pushed { OnOk result (self.new ≡ word ∷ self.old) }
        ensures room { OnOk result (length self.old < STACK_WORDS) }
        ensures full { IfErr result (λ h. (h ≡ Overflow) × (length self.old ≡ STACK_WORDS)) }
        ensures err { OnErr result (self.new ≡ self.old) }
    {
        if self.free == 0 {
            return Err(Halt::Overflow);
        }
        self.free -= 1;
        self.room[self.free] = word;
        Ok(())
    }

    /// Drops the top `words` words. Requires that the stack has at least `words`.
    #[inline(always)]
    pub fn discard(&mut self, words: usize)
        requires { words ≤ length self.old }
        ensures { self.new ≡ drop words self.old }
    {
        self.free += words;
    }

    /// Pops the top word and returns it. Fails with `Halt::Empty` exactly if there is none. Then
    /// nothing has changed.
    #[inline(always)]
    pub fn pop(&mut self) -> Result<u16, Halt>
        ensures popped { IfOk result (λ word. self.old ≡ word ∷ self.new) }
        ensures empty { IfErr result (λ h. (h ≡ Empty) × (length self.old ≡ 0)) }
        ensures err { OnErr result (self.new ≡ self.old) }
    {
        if self.free == STACK_WORDS {
            return Err(Halt::Empty);
        }
        let word = self.top();
        self.free += 1;
        Ok(word)
    }
}
