//! Blocks: consecutive words of memory, which are copied, pushed and popped.
ghost use Rattle.std.specs.Prelude.{◌≡◌, ◌+◌, ◌≤◌, ◌++◌, IsTrue, length, take, drop};
ghost use Rattle.pcode_frames.specs.declared.limits.TheConstants.{STACK_WORDS};
ghost use Rattle.pcode_frames.specs.Blocks.{is_live, block_of, with_block};

use crate::memory::Memory;
use crate::stack::Stack;

impl Memory {
    /// Returns true exactly if the `words` words from address `word` on are live. If `words` is 0,
    /// they are.
    pub fn is_live(&self, word: u16, words: u16) -> bool
        ensures { result ≡ is_live self.now word words }
    {
        words == 0 || word > 0 && u32::from(word) - 1 + u32::from(words) <= u32::from(self.top())
    }

    /// Copies `words` live words from `from` on to the live words from `to` on. It reads all before
    /// it writes any.
    pub fn copy(&mut self, to: u16, from: u16, words: u16)
        requires to { IsTrue (is_live self.old to words) }
        requires from { IsTrue (is_live self.old from words) }
        ensures { self.new ≡ with_block self.old to (block_of self.old from words) }
    {
        if words == 0 {
            return;
        }
        let start = usize::from(from) - 1;
        let end = start + usize::from(words);
        self.words.copy_within(start..end, usize::from(to) - 1);
    }

    /// Pushes `words` live words from `word` on, the highest first, so that the first becomes the
    /// top.
    pub fn push_block(&self, stack: &mut Stack, word: u16, words: u16)
        requires live { IsTrue (is_live self.now word words) }
        requires room { length stack.old + words ≤ STACK_WORDS }
        ensures { stack.new ≡ block_of self.now word words ++ stack.old }
    {
        for above in (0..usize::from(words)).rev() {
            let value = self.words[usize::from(word) + above - 1];
            stack.push(value).unwrap();
        }
    }

    /// Pops `words` words to the live words from `word` on, the top to the first.
    pub fn pop_block(&mut self, stack: &mut Stack, word: u16, words: u16)
        requires live { IsTrue (is_live self.old word words) }
        requires there { words ≤ length stack.old }
        ensures memory { self.new ≡ with_block self.old word (take words stack.old) }
        ensures stack { stack.new ≡ drop words stack.old }
    {
        for above in 0..usize::from(words) {
            let value = stack.pop().unwrap();
            self.words[usize::from(word) + above - 1] = value;
        }
    }
}
